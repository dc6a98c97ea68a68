//! The words in groups: an option with its value, or a flag.

ghost use Rattle.std.specs.Prelude.{◌≡◌, ◌+◌, ◌<◌, IfOk, IsTrue, drop, length, slice_index, slice_index_or};
ghost use Rattle.helix_command.specs.Groups.{group_of, groups_of, takes_next, value_of};

use crate::options::{OptionName, option_named};
use crate::word::{name_in, value_in};
use helix_base::{List, Memory, Text};
use std::alloc::Global;

/// What one or two words give: the number of the first, from 1, the option that it names, and a value.
#[derive(Debug, Drop)]
pub struct Group {
    pub number: u64,
    pub option: Option<OptionName>,
    pub value: Option<Text>,
}

/// The groups of the words.
#[tactic(auto, using(crate::proofs::Dividing::groups_step), unfolding(crate::specs::Groups::groups_of))]
pub fn groups_of(alloc: Global, words: &[Text]) -> Result<List<Group>, Memory>
    ensures { IfOk result (λ groups. groups ≡ groups_of words.now) }
{
    let mut groups = List::new(alloc);
    let mut is_value = false;
    for (index, word) in words.iter().enumerate() {
        if is_value {
            is_value = false;
        } else {
            groups.push(group_of(alloc, index as u64 + 1, word, &words[index + 1..])?)?;
            is_value = takes_next(word);
        }
    }
    Ok(groups)
}

/// The group that begins with a word.
#[tactic(auto, unfolding(crate::specs::Groups::group_of))]
fn group_of(alloc: Global, number: u64, word: &Text, after: &[Text]) -> Result<Group, Memory>
    ensures { IfOk result (λ group. group ≡ group_of number word.now after.now) }
{
    Ok(Group {
        number,
        option: option_named(name_in(word.codes())),
        value: value_of(alloc, word, after)?,
    })
}

/// The value in a word, or the next word where it takes that.
#[tactic(auto, unfolding(crate::specs::Groups::value_of))]
fn value_of(alloc: Global, word: &Text, after: &[Text]) -> Result<Option<Text>, Memory>
    ensures { IfOk result (λ value. value ≡ value_of word.now after.now) }
{
    if takes_next(word) {
        match after {
            [next, ..] => Ok(Some(next.copy(alloc)?)),
            [] => Ok(None),
        }
    } else {
        match value_in(word.codes()) {
            Some(own) => Ok(Some(Text::from_codes(alloc, own)?)),
            None => Ok(None),
        }
    }
}

/// Whether a word takes the next one as its value.
#[tactic(auto, unfolding(crate::specs::Groups::takes_next))]
fn takes_next(word: &Text) -> bool
    ensures { result ≡ takes_next word.now }
{
    match (value_in(word.codes()), option_named(name_in(word.codes()))) {
        (None, Some(option)) => option.takes_value(),
        _ => false,
    }
}
