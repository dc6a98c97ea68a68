//! Signed atoms, made ready to be tested on many values.

ghost use Rattle.std.specs.Prelude.{◌≡◌, ◌↔◌, Some, IsTrue, IfOk};
ghost use Rattle.helix_domains.specs.Domain.{PassesAtom};
ghost use Rattle.helix_domains.specs.Form.{AreAscending};
ghost use Rattle.helix_domains.specs.Inner.Listed.{HaveSameCells};
ghost use Rattle.helix_domains.specs.Inner.Ready.{IsReadyFor, AreReady, HasCharacters};
ghost use Rattle.helix_automata.specs.Automaton.{Accepts};
ghost use Rattle.helix_profile.specs.Holds.{Holds, IsTextWith};
ghost use Rattle.helix_values.specs.View.{cell_of};

use crate::atom::SignedAtom;
use crate::listed::{ascending, is_listed};
use helix_automata::Dfa;
use helix_base::Memory;
use helix_compile::dfa_of;
use helix_profile::{Test, test_holds};
use helix_values::{Cell, CellRef, Cells};
use std::alloc::Global;

/// What makes the test of a signed atom quick: its time doesn't depend on the set or the pattern of the test.
#[derive(Debug, Drop)]
pub enum Ready {
    /// Nothing: the test looks at an operand alone.
    Plain,
    /// The members of a set, in ascending order.
    Members(Cells),
    /// The automaton of a pattern.
    Pattern(Dfa),
}

/// The members of a set in ascending order.
fn members_in_order(alloc: Global, members: &[Cell]) -> Result<Cells, Memory>
    ensures ascending { IfOk result AreAscending }
    ensures same { IfOk result (HaveSameCells members.now) }
{
    let mut all = Vec::with_capacity(alloc, members.len())?;
    for member in members {
        all.push(member.copy(alloc)?)?;
    }
    ascending(alloc, all)
}

/// Makes a signed atom ready. Nothing is made for the one that is chosen.
fn ready_for(alloc: Global, signed: &SignedAtom, chosen: bool) -> Result<Ready, Memory>
    ensures { IfOk result (IsReadyFor signed.now) }
{
    if chosen {
        return Ok(Ready::Plain);
    }
    match &signed.atom.test {
        Test::InSet(members) => Ok(Ready::Members(members_in_order(alloc, members.as_slice())?)),
        Test::Matching(regex) => Ok(Ready::Pattern(dfa_of(alloc, regex, false)?)),
        Test::Containing(regex) => Ok(Ready::Pattern(dfa_of(alloc, regex, true)?)),
        _ => Ok(Ready::Plain),
    }
}

/// Whether the atom with an index is the one that is chosen.
pub fn is_chosen(chosen: Option<usize>, index: usize) -> bool
    ensures { IsTrue result ↔ (chosen ≡ Some index) }
{
    match chosen {
        Some(other) => other == index,
        None => false,
    }
}

/// Makes each signed atom ready but the one that is chosen.
pub fn all_ready(
    alloc: Global,
    atoms: &[SignedAtom],
    chosen: Option<usize>,
) -> Result<Vec<Ready>, Memory>
    ensures { IfOk result (λ ready. AreReady atoms.now ready.items) }
{
    let mut all = Vec::with_capacity(alloc, atoms.len())?;
    for (index, signed) in atoms.iter().enumerate() {
        all.push(ready_for(alloc, signed, is_chosen(chosen, index))?)?;
    }
    Ok(all)
}

/// Whether an automaton accepts a value that is a text.
fn accepts(dfa: &Dfa, value: CellRef<'_>) -> bool
    requires { HasCharacters (cell_of value) }
    ensures { IsTrue result ↔ IsTextWith (Accepts dfa.now) (cell_of value.entry) }
{
    match value {
        CellRef::Text(codes) => dfa.accepts(codes),
        _ => false,
    }
}

/// Whether the test of a signed atom holds of a value.
fn holds(signed: &SignedAtom, ready: &Ready, value: CellRef<'_>) -> bool
    requires ready { IsReadyFor signed.now ready.now }
    requires characters { HasCharacters (cell_of value) }
    ensures { IsTrue result ↔ Holds signed.now.atom.test (cell_of value.entry) }
{
    match ready {
        Ready::Plain => test_holds(&signed.atom.test, value),
        Ready::Members(members) => is_listed(members.as_slice(), value),
        Ready::Pattern(dfa) => accepts(dfa, value),
    }
}

/// Whether a value passes a signed atom.
pub fn passes(signed: &SignedAtom, ready: &Ready, value: CellRef<'_>) -> bool
    requires ready { IsReadyFor signed.now ready.now }
    requires characters { HasCharacters (cell_of value) }
    ensures { IsTrue result ↔ PassesAtom signed.now (cell_of value.entry) }
{
    holds(signed, ready, value) == signed.sign
}
