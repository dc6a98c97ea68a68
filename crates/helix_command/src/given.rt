//! What the groups give.

ghost use Rattle.std.specs.Prelude.{◌≡◌, option_copied};
ghost use Rattle.helix_command.specs.Given.{first_given, gives, is_among, is_given, number_given, value_given};

use crate::group::Group;
use crate::options::OptionName;
use crate::values::number_named;
use helix_base::Text;

/// Whether a group is one of an option.
#[tactic(auto, unfolding(crate::specs::Given::gives))]
fn gives(option: OptionName, group: &Group) -> bool
    ensures { result ≡ gives option group.now }
{
    match group.option {
        Some(own) => own.row() == option.row(),
        None => false,
    }
}

/// Whether some group gives an option.
#[tactic(auto, unfolding(crate::specs::Given::is_given))]
pub fn is_given(option: OptionName, groups: &[Group]) -> bool
    ensures { result ≡ is_given option groups.now }
{
    groups.iter().any(|group| gives(option, group))
}

/// The value of the first group that gives an option.
#[tactic(auto, unfolding(crate::specs::Given::value_given))]
pub fn value_given(option: OptionName, groups: &[Group]) -> Option<&Text>
    ensures { option_copied result ≡ value_given option groups.now }
{
    for group in groups {
        if gives(option, group) {
            return group.value.as_ref();
        }
    }
    None
}

/// The number that the value of an option spells.
#[tactic(auto, unfolding(crate::specs::Given::number_given))]
pub fn number_given(option: OptionName, groups: &[Group]) -> Option<u64>
    ensures { result ≡ number_given option groups.now }
{
    match value_given(option, groups) {
        Some(text) => number_named(text.codes()),
        None => None,
    }
}

/// The first given option among these.
#[tactic(auto, unfolding(crate::specs::Given::first_given))]
pub fn first_given(among: &[OptionName], groups: &[Group]) -> Option<OptionName>
    ensures { result ≡ first_given among.now groups.now }
{
    for group in groups {
        if is_among(among, group) {
            return group.option;
        }
    }
    None
}

/// Whether a group is one of these options.
#[tactic(auto, unfolding(crate::specs::Given::is_among))]
fn is_among(among: &[OptionName], group: &Group) -> bool
    ensures { result ≡ is_among among.now group.now }
{
    among.iter().any(|option| gives(*option, group))
}
