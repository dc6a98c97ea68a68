//! Whether arcs have the shape that an automaton asks for.

ghost use Rattle.std.specs.Prelude.{◌↔◌, IsTrue, All, ◌<◌, ◌+◌};
ghost use Rattle.helix_automata.specs.Shape.{AreInOrder, AreArcs, LeadOn, HasCharacter};
ghost use Rattle.helix_automata.specs.Inner.Row.{IsNextCharacter};

use crate::arc::{Arc, Arcs};
use helix_base::Alphabet;

/// The least character above a code.
pub fn character_above(code: u32) -> Option<u32>
    ensures { IsNextCharacter (code + 1) result }
{
    if code < u32::MAX {
        Alphabet::Unicode.next_at_or_after(code + 1)
    } else {
        None
    }
}

/// Whether each arc ends below the beginning of the next one.
fn are_in_order(arcs: &[Arc]) -> bool
    ensures { IsTrue result ↔ AreInOrder arcs.now }
{
    let mut rest = arcs;
    while let [arc, next, ..] = rest {
        if arc.last >= next.first {
            return false;
        }
        rest = &rest[1..];
    }
    true
}

/// Whether each arc leads to one of n states.
fn are_named(arcs: &[Arc], states: usize) -> bool
    ensures { IsTrue result ↔ All (λ arc. arc.to < states) arcs.now }
{
    arcs.iter().all(|arc| (arc.to as usize) < states)
}

/// Whether the arcs hold all characters, and each holds one.
fn hold_characters(arcs: &[Arc]) -> bool
    requires { AreInOrder arcs.now }
    ensures { IsTrue result ↔ (LeadOn 0 arcs.now × All HasCharacter arcs.now) }
{
    let mut wanted = Alphabet::Unicode.next_at_or_after(0);
    for arc in arcs {
        let Some(character) = wanted else {
            return false;
        };
        if character < arc.first || arc.last < character {
            return false;
        }
        wanted = character_above(arc.last);
    }
    wanted.is_none()
}

/// Whether these can be the arcs of a state of an automaton with n states.
pub fn are_arcs(arcs: &[Arc], states: usize) -> bool
    ensures { IsTrue result ↔ AreArcs states arcs.now }
{
    are_in_order(arcs) && hold_characters(arcs) && are_named(arcs, states)
}

/// Whether each of these can be the arcs of a state of an automaton with n states.
pub fn are_rows(rows: &[Arcs], states: usize) -> bool
    ensures { IsTrue result ↔ All (AreArcs states) rows.now }
{
    rows.iter().all(|arcs| are_arcs(arcs.as_slice(), states))
}
