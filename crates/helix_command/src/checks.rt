//! The checks after the last word: options that are missing, and options that do not go together.

ghost use Rattle.std.specs.Prelude.{◌≡◌, option_copied};
ghost use Rattle.helix_command.specs.Checks.{all_fault, are_equal, are_given, blame, both_equal, both_numbered, boundary_fault, check_fault, explain_fault, first_blamed, is_numbered, is_overwritten, missing, names_fault, output_fault, rule_fault, token_fault};

use crate::given::{first_given, is_given, value_given};
use crate::group::Group;
use crate::options::OptionName;
use crate::values::number_within;
use helix_base::Text;

/// The options that don't go with a workload.
const NOT_OF_WORKLOAD: [OptionName; 12] = [
    OptionName::ProfileFile,
    OptionName::OutputPath,
    OptionName::OutputFormat,
    OptionName::ResumeFile,
    OptionName::TokenFile,
    OptionName::Violate,
    OptionName::ViolateRule,
    OptionName::Characters,
    OptionName::Replace,
    OptionName::ViolateAll,
    OptionName::Boundary,
    OptionName::Explain,
];

/// The options that don't go with the violation of all constraints.
const NOT_OF_ALL: [OptionName; 4] = [
    OptionName::Violate,
    OptionName::ViolateRule,
    OptionName::ResumeFile,
    OptionName::TokenFile,
];

/// The option that the first failed check blames.
#[tactic(auto, unfolding(crate::specs::Checks::check_fault))]
pub fn check_fault(groups: &[Group]) -> Option<OptionName>
    ensures { result ≡ check_fault groups.now }
{
    names_fault(groups)
        .or(output_fault(groups))
        .or(token_fault(groups))
        .or(rule_fault(groups))
        .or(all_fault(groups))
        .or(boundary_fault(groups))
        .or(explain_fault(groups))
}

/// A workload has only a row limit beside it; another order has a profile file and an output path.
#[tactic(auto, unfolding(crate::specs::Checks::names_fault))]
fn names_fault(groups: &[Group]) -> Option<OptionName>
    ensures { result ≡ names_fault groups.now }
{
    if is_given(OptionName::Workload, groups) {
        first_given(&NOT_OF_WORKLOAD, groups).or(missing(OptionName::MaxRows, groups))
    } else {
        missing(OptionName::ProfileFile, groups).or(missing(OptionName::OutputPath, groups))
    }
}

/// The output is neither the profile file nor the resume file.
#[tactic(auto, unfolding(crate::specs::Checks::output_fault))]
fn output_fault(groups: &[Group]) -> Option<OptionName>
    ensures { result ≡ output_fault groups.now }
{
    let wrong = are_equal(OptionName::OutputPath, OptionName::ProfileFile, groups)
        || are_equal(OptionName::OutputPath, OptionName::ResumeFile, groups);
    blame(OptionName::OutputPath, wrong)
}

/// The token file is neither the profile file nor the output.
#[tactic(auto, unfolding(crate::specs::Checks::token_fault))]
fn token_fault(groups: &[Group]) -> Option<OptionName>
    ensures { result ≡ token_fault groups.now }
{
    let wrong = are_equal(OptionName::TokenFile, OptionName::ProfileFile, groups)
        || are_equal(OptionName::TokenFile, OptionName::OutputPath, groups);
    blame(OptionName::TokenFile, wrong)
}

/// At most one constraint is violated.
#[tactic(auto, unfolding(crate::specs::Checks::rule_fault))]
fn rule_fault(groups: &[Group]) -> Option<OptionName>
    ensures { result ≡ rule_fault groups.now }
{
    blame(
        OptionName::ViolateRule,
        are_given(OptionName::ViolateRule, OptionName::Violate, groups),
    )
}

/// Where all constraints are violated, no single one is, no run goes on, and no file that is written is the profile.
#[tactic(auto, unfolding(crate::specs::Checks::all_fault))]
fn all_fault(groups: &[Group]) -> Option<OptionName>
    ensures { result ≡ all_fault groups.now }
{
    if is_given(OptionName::ViolateAll, groups) {
        first_given(&NOT_OF_ALL, groups).or(blame(OptionName::OutputPath, is_overwritten(groups)))
    } else {
        None
    }
}

/// Boundary values don't go with the violation of all constraints.
#[tactic(auto, unfolding(crate::specs::Checks::boundary_fault))]
fn boundary_fault(groups: &[Group]) -> Option<OptionName>
    ensures { result ≡ boundary_fault groups.now }
{
    blame(
        OptionName::Boundary,
        are_given(OptionName::Boundary, OptionName::ViolateAll, groups),
    )
}

/// An explanation goes with neither.
#[tactic(auto, unfolding(crate::specs::Checks::explain_fault))]
fn explain_fault(groups: &[Group]) -> Option<OptionName>
    ensures { result ≡ explain_fault groups.now }
{
    let wrong = are_given(OptionName::Explain, OptionName::ViolateAll, groups)
        || are_given(OptionName::Explain, OptionName::Boundary, groups);
    blame(OptionName::Explain, wrong)
}

/// The option, where it is to blame.
fn blame(option: OptionName, wrong: bool) -> Option<OptionName>
    ensures { result ≡ blame option wrong }
{
    if wrong { Some(option) } else { None }
}

/// The option, where it isn't given.
#[tactic(auto, unfolding(crate::specs::Checks::missing))]
fn missing(option: OptionName, groups: &[Group]) -> Option<OptionName>
    ensures { result ≡ missing option groups.now }
{
    if is_given(option, groups) {
        None
    } else {
        Some(option)
    }
}

/// Whether both options are given.
#[tactic(auto, unfolding(crate::specs::Checks::are_given))]
fn are_given(a: OptionName, b: OptionName, groups: &[Group]) -> bool
    ensures { result ≡ are_given a b groups.now }
{
    is_given(a, groups) && is_given(b, groups)
}

/// Whether both options are given, with the same text.
#[tactic(auto, unfolding(crate::specs::Checks::are_equal))]
fn are_equal(a: OptionName, b: OptionName, groups: &[Group]) -> bool
    ensures { result ≡ are_equal a b groups.now }
{
    both_equal(value_given(a, groups), value_given(b, groups))
}

/// Whether two texts are there and are the same.
fn both_equal(a: Option<&Text>, b: Option<&Text>) -> bool
    ensures { result ≡ both_equal (option_copied a.entry) (option_copied b.entry) }
{
    match (a, b) {
        (Some(a), Some(b)) => a.codes() == b.codes(),
        _ => false,
    }
}

/// Whether the profile file is one that the violation of all constraints writes.
#[tactic(auto, unfolding(crate::specs::Checks::is_overwritten))]
fn is_overwritten(groups: &[Group]) -> bool
    ensures { result ≡ is_overwritten groups.now }
{
    match (
        value_given(OptionName::OutputPath, groups),
        value_given(OptionName::ProfileFile, groups),
    ) {
        (Some(output), Some(file)) => is_numbered(output.codes(), file.codes()),
        _ => false,
    }
}

/// Whether a file's name is the output path, `.` and a numeral from 1 to 1000.
#[tactic(auto, unfolding(crate::specs::Checks::is_numbered))]
fn is_numbered(output: &[u32], file: &[u32]) -> bool
    ensures { result ≡ is_numbered output.now file.now }
{
    let size = output.len();
    size < file.len()
        && file[size] == '.' as u32
        && &file[..size] == output
        && number_within(1000, &file[size + 1..]).is_some()
}
