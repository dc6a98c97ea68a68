//! What is wrong with a group, and the first fault from the left.

ghost use Rattle.std.specs.Prelude.{◌≡◌, option_copied};
ghost use Rattle.helix_command.specs.Faults.{first_fault, fits, group_fault, option_fault};

use crate::fault::WordsFault;
use crate::given::is_given;
use crate::group::Group;
use crate::options::OptionName;
use crate::values::is_value;
use helix_base::Text;

/// The first fault from the left.
#[tactic(auto, using(crate::proofs::Faulting::fault_step), unfolding(crate::specs::Faults::first_fault))]
pub fn first_fault(groups: &[Group]) -> Option<WordsFault>
    ensures { result ≡ first_fault groups.now }
{
    for (index, group) in groups.iter().enumerate() {
        let fault = group_fault(&groups[..index], group);
        if fault.is_some() {
            return fault;
        }
    }
    None
}

/// What is wrong with a group after others.
#[tactic(auto, unfolding(crate::specs::Faults::group_fault))]
fn group_fault(before: &[Group], group: &Group) -> Option<WordsFault>
    ensures { result ≡ group_fault before.now group.now }
{
    match group.option {
        Some(option) => option_fault(before, group, option),
        None => Some(WordsFault::Word(group.number)),
    }
}

/// What is wrong with an option after others: it was given before, or the value doesn't fit.
fn option_fault(before: &[Group], group: &Group, option: OptionName) -> Option<WordsFault>
    ensures { result ≡ option_fault before.now group.now.value option }
{
    if is_given(option, before) || !fits(option, group.value.as_ref()) {
        Some(WordsFault::Option(option))
    } else {
        None
    }
}

/// Whether a flag has no value, or another option one that it takes.
#[tactic(auto, unfolding(crate::specs::Faults::fits))]
fn fits(option: OptionName, value: Option<&Text>) -> bool
    ensures { result ≡ fits option (option_copied value.entry) }
{
    match value {
        Some(text) => is_value(option, text.codes()),
        None => !option.takes_value(),
    }
}
