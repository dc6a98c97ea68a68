//! The epsilon closure of a set of states.

ghost use Rattle.std.specs.Prelude.{OnOk, slice_get};
ghost use Rattle.helix_compile.specs.Inner.Closure.{Visits};
ghost use Rattle.helix_compile.specs.Inner.Subsets.{AcceptTheSame, HasNoSplit};

use crate::nfa::State;
use crate::seen::Seen;
use crate::state_at::{accepts_all_at, is_kept_at, split_at};
use helix_base::Memory;

/// Notes both sides of a split, and finds a state that accepts or reads a character.
fn visit(nfa: &[State], number: u32, seen: &mut Seen, found: &mut Vec<u32>) -> Result<(), Memory>
    ensures { OnOk result (Visits (slice_get nfa.now number) number seen.old seen.new found.old.items found.new.items) }
{
    if let Some((one, other)) = split_at(nfa, number) {
        seen.note(one)?;
        return seen.note(other);
    }
    if !is_kept_at(nfa, number) {
        return Ok(());
    }
    found.push(number)?;
    Ok(())
}

/// Computes the epsilon closure of the states that have been seen, without its splits and failures, in ascending order.
/// Where one of them accepts every word, it is found alone, since the others add no word. Out of memory is answered too
/// where 2^32 - 1 states or more are seen.
pub fn epsilon_closure(nfa: &[State], seen: &mut Seen, found: &mut Vec<u32>) -> Result<(), Memory>
    ensures same { OnOk result (AcceptTheSame nfa.now seen.old found.new.items) }
    ensures no_split { OnOk result (HasNoSplit nfa.now found.new.items) }
{
    found.clear();
    for done in 0..u32::MAX {
        let Some(number) = seen.get(done) else {
            found.sort_unstable();
            return Ok(());
        };
        if accepts_all_at(nfa, number) {
            found.clear();
            found.push(number)?;
            return Ok(());
        }
        visit(nfa, number, seen, found)?;
    }
    Err(Memory)
}
