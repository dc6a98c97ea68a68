//! The arcs of all states in one list.

ghost use Rattle.std.specs.Prelude.{◌≡◌, ◌+◌, ◌<◌, ◌≤◌, ◌++◌, length, slice_index, OnOk, IfOk, All};
ghost use Rattle.std.specs.List.{filter};
ghost use Rattle.helix_automata.specs.Automaton.{most_arcs};
ghost use Rattle.helix_words.specs.Inner.Rows.{row_of, AreRowsWith};
ghost use Rattle.helix_words.specs.Inner.Table.{has_bit};

use crate::table::Table;
use helix_automata::{Arc, Arcs, Dfa};
use helix_base::{Memory, Numbers32};
use std::alloc::Global;

/// The arcs of all states that lead on, one state after the other, and where those of each state start.
#[derive(Debug, Drop)]
pub struct Rows {
    pub starts: Numbers32,
    pub arcs: Arcs,
}

impl Rows {
    /// The arcs of a state.
    #[inline(always)]
    pub fn row(&self, state: u32) -> &[Arc]
        requires state { state + 1 < length self.now.starts }
        requires rise { slice_index self.now.starts state ≤ slice_index self.now.starts (state + 1) }
        requires within { slice_index self.now.starts (state + 1) ≤ length self.now.arcs }
        ensures { result.now ≡ row_of self.now.starts self.now.arcs state }
    {
        let starts = self.starts.as_slice();
        let first = starts[state as usize] as usize;
        let end = starts[state as usize + 1] as usize;
        &self.arcs.as_slice()[first..end]
    }
}

/// Appends the arcs that lead to a state with a bit.
fn push_row(arcs: &mut Arcs, row: &[Arc], table: &Table) -> Result<(), Memory>
    requires { All (λ arc. All (λ block. arc.to < length block) table.now.blocks) row.now }
    ensures { OnOk result (arcs.new ≡ arcs.old ++ filter (λ arc. has_bit table.now.blocks arc.to) row.now) }
{
    for arc in row {
        if table.is_live(arc.to) {
            arcs.push(*arc)?;
        }
    }
    Ok(())
}

/// How many arcs there are. Out of memory is answered too where these are 2^32 or more.
fn number_of(arcs: &[Arc]) -> Result<u32, Memory>
    ensures { IfOk result (λ number. number ≡ length arcs.now) }
{
    match u32::try_from(arcs.len()) {
        Ok(number) => Ok(number),
        Err(_) => Err(Memory),
    }
}

/// The arcs of an automaton that lead to a state with a bit.
pub fn rows_of(alloc: Global, dfa: &Dfa, table: &Table) -> Result<Rows, Memory>
    requires { All (λ block. length block ≡ length dfa.now.moves) table.now.blocks }
    ensures { IfOk result (AreRowsWith table.now.blocks dfa.now.moves) }
{
    let mut starts = Numbers32::new(alloc);
    let mut arcs = Arcs::new(alloc);
    starts.push(0)?;
    for state in 0..dfa.states() {
        push_row(&mut arcs, dfa.arcs(state), table)?;
        starts.push(number_of(arcs.as_slice())?)?;
    }
    Ok(Rows { starts, arcs })
}
