//! The state with a number.

ghost use Rattle.std.specs.Prelude.{◌≡◌, ◌↔◌, ℕ, List, IsTrue, IfSome, IfNone, Some, slice_get};
ghost use Rattle.helix_compile.specs.declared.nfa.State.TheVariants.{AcceptAll, Read, Split};
ghost use Rattle.helix_compile.specs.Inner.Closure.{IsKept};
ghost use Rattle.helix_compile.specs.Inner.Subsets.{AcceptsEmpty};

use crate::nfa::State;

/// The ranges of a state that reads a character, and the state to which they lead.
pub fn read_at(nfa: &[State], number: u32) -> Option<(&[(u32, u32)], u32)>
    ensures some { IfSome result (λ read. slice_get nfa.now number ≡ Some (Read read.0.now read.1)) }
    ensures none { IfNone result ((ranges : List (ℕ × ℕ)) (next : ℕ)
        → slice_get nfa.now number ≡ Some (Read ranges next) → ⊥) }
{
    match nfa.get(number as usize)? {
        State::Read(ranges, next) => Some((ranges.as_slice(), *next)),
        _ => None,
    }
}

/// Whether a state accepts the empty word without a further step.
pub fn accepts_empty_at(nfa: &[State], number: u32) -> bool
    ensures { IsTrue result ↔ AcceptsEmpty (slice_get nfa.now number) }
{
    match nfa.get(number as usize) {
        Some(State::Accept) => true,
        Some(State::AcceptAll) => true,
        _ => false,
    }
}

/// Whether a state accepts every word.
pub fn accepts_all_at(nfa: &[State], number: u32) -> bool
    ensures { IsTrue result ↔ (slice_get nfa.now number ≡ Some AcceptAll) }
{
    match nfa.get(number as usize) {
        Some(State::AcceptAll) => true,
        _ => false,
    }
}

/// Whether a state accepts or reads a character.
pub fn is_kept_at(nfa: &[State], number: u32) -> bool
    ensures { IsTrue result ↔ IsKept (slice_get nfa.now number) }
{
    match nfa.get(number as usize) {
        Some(State::Read(_, _)) => true,
        Some(State::Accept) => true,
        Some(State::AcceptAll) => true,
        _ => false,
    }
}

/// The two states to which a split leads.
pub fn split_at(nfa: &[State], number: u32) -> Option<(u32, u32)>
    ensures some { IfSome result (λ sides. slice_get nfa.now number ≡ Some (Split sides.0 sides.1)) }
    ensures none { IfNone result ((one other : ℕ) → slice_get nfa.now number ≡ Some (Split one other) → ⊥) }
{
    match nfa.get(number as usize)? {
        State::Split(one, other) => Some((*one, *other)),
        _ => None,
    }
}
