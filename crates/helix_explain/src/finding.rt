//! The search for a core, from the greatest number down.

ghost use Rattle.std.specs.Prelude.{◌≡◌, ◌↔◌, ℕ, ◌+◌, ◌-◌, ◌<◌, ◌≤◌, List as Numbers, IfOk, OnOk, reverse};
ghost use Rattle.helix_explain.specs.Sets.{AreNumbers, IsCore, numbers_to};
ghost use Rattle.helix_explain.specs.Inner.Stage.{IsStage, set_of};

use crate::emptiness::Emptiness;
use helix_base::{List, Memory, Numbers32};
use std::alloc::Global;

/// The core of a profile that no row satisfies, ascending: leaves out the greatest number that can be left out, then
/// the next greatest, and so on.
pub fn core<E: Emptiness>(alloc: Global, count: u32, ask: &mut E) -> Result<Numbers32, Memory>
    requires counted { count ≡ E.count ask.old }
    requires empty { E.Empties ask.old (numbers_to count) }
    ensures core { IfOk result (λ numbers. IsCore (E.Empties ask.old) count numbers) }
    ensures asked { E.asked ask.new ≤ E.asked ask.old + count }
    ensures count { E.count ask.new ≡ E.count ask.old }
    ensures same { (numbers : Numbers ℕ) → E.Empties ask.new numbers ↔ E.Empties ask.old numbers }
{
    let mut chosen = List::new(alloc);
    for decided in 0..count {
        decide(alloc, count - decided, &mut chosen, ask)?;
    }
    set_of(alloc, 0, chosen.as_slice())
}

/// Decides on a number, the greatest that is undecided: it is chosen where it can't be left out.
fn decide<E: Emptiness>(
    alloc: Global,
    number: u32,
    chosen: &mut Numbers32,
    ask: &mut E,
) -> Result<(), Memory>
    requires positive { 0 < number }
    requires within { number ≤ E.count ask.old }
    requires stage { IsStage (E.Empties ask.old) (E.count ask.old) number chosen.old }
    ensures stage { OnOk result (IsStage (E.Empties ask.new) (E.count ask.new) (number - 1) chosen.new) }
    ensures asked { E.asked ask.new ≤ E.asked ask.old + 1 }
    ensures count { E.count ask.new ≡ E.count ask.old }
    ensures same { (numbers : Numbers ℕ) → E.Empties ask.new numbers ↔ E.Empties ask.old numbers }
{
    let fewer = set_of(alloc, number - 1, chosen.as_slice())?;
    let empty = ask.is_empty(fewer.as_slice())?;
    if empty {
        return Ok(());
    }
    chosen.push(number)?;
    Ok(())
}

/// The numbers up to one, and then those that are chosen above it.
fn set_of(alloc: Global, undecided: u32, chosen: &[u32]) -> Result<Numbers32, Memory>
    ensures { IfOk result (λ set. set ≡ set_of undecided chosen.now) }
{
    let mut set = numbers_to(alloc, undecided)?;
    set.append(ascending(alloc, chosen)?)?;
    Ok(set)
}

/// Descending numbers the other way round.
fn ascending(alloc: Global, descending: &[u32]) -> Result<Numbers32, Memory>
    ensures { IfOk result (λ numbers. numbers ≡ reverse descending.now) }
{
    Ok(List::from_vec(descending.iter().rev().copied().collect(alloc)?))
}

/// The numbers from 1 to one.
pub fn numbers_to(alloc: Global, count: u32) -> Result<Numbers32, Memory>
    ensures { IfOk result (λ numbers. numbers ≡ numbers_to count) }
{
    let mut numbers = List::new(alloc);
    for below in 0..count {
        numbers.push(below + 1)?;
    }
    Ok(numbers)
}
