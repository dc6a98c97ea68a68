//! The words of a command line, read.

ghost use Rattle.std.specs.Prelude.{◌≡◌, ◌≢◌, [], IfErr, IfOk, map, string_bytes, unwrap_or};
ghost use Rattle.helix_command.specs.Orders.{alphabet_of, fault_of, format_of, IsFault, IsOrder, job_of, limit_of, order_of, texts_of};
ghost use Rattle.helix_command.specs.Given.{value_given};

use crate::checks::check_fault;
use crate::fault::WordsFault;
use crate::faults::first_fault;
use crate::given::{is_given, number_given, value_given};
use crate::group::{Group, groups_of};
use crate::options::OptionName;
use crate::order::{Job, Order};
use crate::values::{alphabet_named, format_named};
use helix_base::{Alphabet, List, Memory, Text};
use helix_output::Format;
use std::alloc::Global;

/// Row limit where none is given.
const DEFAULT_LIMIT: u64 = 10_000_000;

/// The order that the words after a program's name give.
pub fn read_words(alloc: Global, words: &[String]) -> Result<Order, WordsFault>
    ensures order { IfOk result (λ order. IsOrder (texts_of (map string_bytes words.now)) order) }
    ensures fault { IfErr result (λ fault. fault ≢ WordsFault.Memory
        → IsFault (texts_of (map string_bytes words.now)) fault) }
{
    let texts = texts_of(alloc, words)?;
    let groups = groups_of(alloc, texts.as_slice())?;
    match fault_of(groups.as_slice()) {
        Some(fault) => Err(fault),
        None => Ok(order_of(alloc, groups.as_slice())?),
    }
}

/// The words as texts.
#[tactic(auto, unfolding(crate::specs::Orders::texts_of))]
fn texts_of(alloc: Global, words: &[String]) -> Result<List<Text>, Memory>
    ensures { IfOk result (λ texts. texts ≡ texts_of (map string_bytes words.now)) }
{
    let mut texts = List::new(alloc);
    for word in words {
        texts.push(Text::of(alloc, word.as_str())?)?;
    }
    Ok(texts)
}

/// The first fault of the groups from the left, or else that of the first check that fails.
#[tactic(auto, unfolding(crate::specs::Orders::fault_of))]
fn fault_of(groups: &[Group]) -> Option<WordsFault>
    ensures { result ≡ fault_of groups.now }
{
    match first_fault(groups) {
        Some(fault) => Some(fault),
        None => match check_fault(groups) {
            Some(option) => Some(WordsFault::Option(option)),
            None => None,
        },
    }
}

/// The order that groups without a fault give.
#[tactic(auto, unfolding(crate::specs::Orders::order_of))]
fn order_of(alloc: Global, groups: &[Group]) -> Result<Order, Memory>
    ensures { IfOk result (λ order. order ≡ order_of groups.now) }
{
    match number_given(OptionName::Workload, groups) {
        Some(number) => Ok(Order::Workload {
            number,
            limit: limit_of(groups),
        }),
        None => Ok(Order::Generate(job_of(alloc, groups)?)),
    }
}

/// The job that groups without a fault give.
#[tactic(auto, unfolding(crate::specs::Orders::job_of))]
fn job_of(alloc: Global, groups: &[Group]) -> Result<Job, Memory>
    ensures { IfOk result (λ job. job ≡ job_of groups.now) }
{
    let profile = name_of(alloc, OptionName::ProfileFile, groups)?;
    let output = name_of(alloc, OptionName::OutputPath, groups)?;
    let resume = text_of(alloc, OptionName::ResumeFile, groups)?;
    let token = text_of(alloc, OptionName::TokenFile, groups)?;
    let violate_rule = text_of(alloc, OptionName::ViolateRule, groups)?;
    Ok(Job {
        profile,
        output,
        format: format_of(groups),
        limit: limit_of(groups),
        resume,
        token,
        violate: number_given(OptionName::Violate, groups),
        violate_rule,
        alphabet: alphabet_of(groups),
        replace: is_given(OptionName::Replace, groups),
        violate_all: is_given(OptionName::ViolateAll, groups),
        boundary: is_given(OptionName::Boundary, groups),
        explain: is_given(OptionName::Explain, groups),
    })
}

/// The row limit.
#[tactic(auto, unfolding(crate::specs::Orders::limit_of))]
fn limit_of(groups: &[Group]) -> u64
    ensures { result ≡ limit_of groups.now }
{
    number_given(OptionName::MaxRows, groups).unwrap_or(DEFAULT_LIMIT)
}

/// The format.
#[tactic(auto, unfolding(crate::specs::Orders::format_of))]
fn format_of(groups: &[Group]) -> Format
    ensures { result ≡ format_of groups.now }
{
    match value_given(OptionName::OutputFormat, groups) {
        Some(text) => format_named(text.codes()).unwrap_or(Format::Csv),
        None => Format::Csv,
    }
}

/// The alphabet.
#[tactic(auto, unfolding(crate::specs::Orders::alphabet_of))]
fn alphabet_of(groups: &[Group]) -> Alphabet
    ensures { result ≡ alphabet_of groups.now }
{
    match value_given(OptionName::Characters, groups) {
        Some(text) => alphabet_named(text.codes()).unwrap_or(Alphabet::Basic),
        None => Alphabet::Basic,
    }
}

/// The text of an option that may be given.
fn text_of(alloc: Global, option: OptionName, groups: &[Group]) -> Result<Option<Text>, Memory>
    ensures { IfOk result (λ text. text ≡ value_given option groups.now) }
{
    match value_given(option, groups) {
        Some(text) => Ok(Some(text.copy(alloc)?)),
        None => Ok(None),
    }
}

/// The text of an option that is given.
fn name_of(alloc: Global, option: OptionName, groups: &[Group]) -> Result<Text, Memory>
    ensures { IfOk result (λ text. text ≡ unwrap_or (value_given option groups.now) []) }
{
    match value_given(option, groups) {
        Some(text) => text.copy(alloc),
        None => Ok(Text::new(alloc)),
    }
}
