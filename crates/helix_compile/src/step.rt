//! Where a character leads from a set of states.

ghost use Rattle.std.specs.Prelude.{◌≡◌, ◌↔◌, ◌⊎◌, ◌≤◌, ◌∷◌, ℕ, List, Some, OnOk, Contains, slice_get};
ghost use Rattle.helix_base.specs.Alphabet.{is_in_range};
ghost use Rattle.helix_base.specs.Ranges.{in_ranges};
ghost use Rattle.helix_compile.specs.declared.nfa.State.TheVariants.{Split};
ghost use Rattle.helix_compile.specs.Inner.Nfa.{NfaAccepts};
ghost use Rattle.helix_compile.specs.Inner.RangeEnds.{IsRangeEnd, IsEndAmong, IsNfaEnd};
ghost use Rattle.helix_compile.specs.Inner.Subsets.{SomeAccepts, HasNoSplit, IsReadAlike, LeadsTo};

use crate::closure::epsilon_closure;
use crate::nfa::State;
use crate::seen::Seen;
use crate::state_at::{accepts_all_at, read_at};
use helix_base::{Memory, in_ranges};

/// Notes the state to which a character leads from one that isn't a split.
fn note_next(nfa: &[State], number: u32, code: u32, seen: &mut Seen) -> Result<(), Memory>
    requires { (one other : ℕ) → slice_get nfa.now number ≡ Some (Split one other) → ⊥ }
    ensures { OnOk result ((word : List ℕ)
        → SomeAccepts nfa.now seen.new word
        ↔ (SomeAccepts nfa.now seen.old word ⊎ NfaAccepts nfa.now number (code ∷ word))) }
{
    if accepts_all_at(nfa, number) {
        return seen.note(number);
    }
    let Some((ranges, next)) = read_at(nfa, number) else {
        return Ok(());
    };
    if in_ranges(ranges, code) {
        seen.note(next)
    } else {
        Ok(())
    }
}

/// Computes the set to which a character leads, by way of what has been seen, which is forgotten first.
pub fn step(
    nfa: &[State],
    set: &[u32],
    code: u32,
    seen: &mut Seen,
    found: &mut Vec<u32>,
) -> Result<(), Memory>
    requires { HasNoSplit nfa.now set.now }
    ensures leads { OnOk result (LeadsTo nfa.now set.now code found.new.items) }
    ensures no_split { OnOk result (HasNoSplit nfa.now found.new.items) }
{
    seen.clear();
    for number in set {
        note_next(nfa, *number, code, seen)?;
    }
    epsilon_closure(nfa, seen, found)
}

/// A code up to which a range holds each code as it holds this one.
fn range_alike_up_to(range: (u32, u32), code: u32) -> u32
    ensures reached { code ≤ result }
    ensures end { IsRangeEnd range result }
    ensures alike { (other : ℕ) → code ≤ other → other ≤ result → is_in_range other range ≡ is_in_range code range }
{
    if code < range.0 {
        range.0 - 1
    } else if code <= range.1 {
        range.1
    } else {
        u32::MAX
    }
}

/// A code up to which the ranges hold each code as they hold this one.
fn ranges_alike_up_to(ranges: &[(u32, u32)], code: u32) -> u32
    ensures reached { code ≤ result }
    ensures end { IsEndAmong ranges.now result }
    ensures alike { (other : ℕ) → code ≤ other → other ≤ result
        → in_ranges ranges.now other ≡ in_ranges ranges.now code }
{
    let mut last = u32::MAX;
    for range in ranges {
        last = last.min(range_alike_up_to(*range, code));
    }
    last
}

/// A code up to which a state reads each code as it reads this one.
fn state_alike_up_to(nfa: &[State], number: u32, code: u32) -> u32
    ensures reached { code ≤ result }
    ensures end { IsNfaEnd nfa.now result }
    ensures alike { (other : ℕ) → code ≤ other → other ≤ result → IsReadAlike nfa.now number code other }
{
    match read_at(nfa, number) {
        Some((ranges, _)) => ranges_alike_up_to(ranges, code),
        None => u32::MAX,
    }
}

/// A code up to which each state of a set reads each code as it reads this one.
pub fn alike_up_to(nfa: &[State], set: &[u32], code: u32) -> u32
    ensures reached { code ≤ result }
    ensures end { IsNfaEnd nfa.now result }
    ensures alike { (other : ℕ) → code ≤ other → other ≤ result → (number : ℕ) → Contains set.now number
        → IsReadAlike nfa.now number code other }
{
    let mut last = u32::MAX;
    for number in set {
        last = last.min(state_alike_up_to(nfa, *number, code));
    }
    last
}
