//! The states that have a rest of one length.

ghost use Rattle.std.specs.Prelude.{◌≡◌, ◌<◌, length, IfOk, All};
ghost use Rattle.std.specs.Bool.{OnTrue};
ghost use Rattle.helix_words.specs.Inner.Columns.{leads_to, column_before};

use helix_automata::{Arc, Dfa, Flags};
use helix_base::Memory;
use std::alloc::Global;

/// Whether each state accepts, and so has the rest of no character.
pub fn accepting_states(alloc: Global, dfa: &Dfa) -> Result<Flags, Memory>
    requires { length dfa.now.accepting ≡ length dfa.now.moves }
    ensures { IfOk result (λ column. column ≡ dfa.now.accepting) }
{
    let mut column = Flags::new(alloc);
    for state in 0..dfa.states() {
        column.push(dfa.accepting(state))?;
    }
    Ok(column)
}

/// Whether some arc leads to a state with a flag.
fn leads_to(arcs: &[Arc], flags: &[bool]) -> bool
    requires { All (λ arc. arc.to < length flags.now) arcs.now }
    ensures { result ≡ leads_to flags.now arcs.now }
{
    for arc in arcs {
        if flags[arc.to as usize] {
            return true;
        }
    }
    false
}

/// The states from which some character leads to one with a flag.
pub fn column_before(alloc: Global, dfa: &Dfa, flags: &[bool]) -> Result<Flags, Memory>
    requires { length flags.now ≡ length dfa.now.moves }
    ensures { IfOk result (λ column. column ≡ column_before dfa.now.moves flags.now) }
{
    let mut column = Flags::new(alloc);
    for state in 0..dfa.states() {
        column.push(leads_to(dfa.arcs(state), flags))?;
    }
    Ok(column)
}

/// Whether two columns are the same.
pub fn are_equal(one: &[bool], other: &[bool]) -> bool
    requires { length one.now ≡ length other.now }
    ensures { OnTrue result (one.now ≡ other.now) }
{
    for (state, flag) in one.iter().enumerate() {
        if *flag != other[state] {
            return false;
        }
    }
    true
}
