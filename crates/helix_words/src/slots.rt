//! Questions whose answers go into slots.

ghost use Rattle.std.specs.Prelude.{◌*◌, ◌<◌, ◌≤◌, length};
ghost use Rattle.std.specs.Bool.{OnFalse};
ghost use Rattle.helix_values.specs.declared.cell.Cell.TheVariants as cells;
ghost use Rattle.helix_values.specs.View.{cell_of};
ghost use Rattle.helix_automata.specs.Automaton.{most_arcs};
ghost use Rattle.helix_words.specs.Moves.{MovedAtMost};
ghost use Rattle.helix_words.specs.Inner.Tables.{IsLengthOf};
ghost use Rattle.helix_words.specs.Inner.Walks.{IsLeastBranch};
ghost use Rattle.helix_words.specs.Inner.Fills.{IsWordAnswer, IsFrom, IsAlikeFrom, IsLongFrom, PutsLeastAbove};

use crate::fill::fill;
use crate::lengths::{has_length, length_from};
use crate::step::Branch;
use crate::walk::walk_along;
use crate::words::Words;
use helix_base::{Ledger, Steps};
use helix_values::{CellRef, Slot};

/// Puts the least of the words with at least a number of characters into a slot.
pub fn put_long<L: Ledger>(words: &Words, from: u32, out: &mut Slot, steps: &mut Steps<L>) -> bool
    ensures answer { IsWordAnswer words.now (IsLongFrom from) result out.old out.new }
    ensures moves { MovedAtMost L.IsNoted (1000 * most_arcs words.now.automaton) steps.old steps.new }
{
    match length_from(words, from) {
        Some(count) => {
            out.set(CellRef::Text(&[]));
            fill(words, 0, count, out, steps);
            true
        }
        None => false,
    }
}

/// Puts the word into a slot to which a branch leads.
fn put_branch<L: Ledger>(
    words: &Words,
    word: &[u32],
    branch: Branch,
    out: &mut Slot,
    steps: &mut Steps<L>,
)
    requires short { words.now.longest ≤ 1000 }
    requires count { length word.now ≤ words.now.longest }
    requires branch { IsLeastBranch words.now.automaton word.now branch }
    ensures puts { PutsLeastAbove words.now.automaton word.now out.new }
    ensures moves { MovedAtMost L.IsNoted (length word.now * most_arcs words.now.automaton) steps.old steps.new }
{
    let place = branch.place as usize;
    out.set(CellRef::Text(&word[..place]));
    out.push(branch.step.character);
    let rest = (word.len() - place - 1) as u32;
    fill(words, branch.step.to, rest, out, steps);
}

/// Puts the least of the words from a word on that are as long into a slot.
fn put_alike<L: Ledger>(
    words: &Words,
    word: &[u32],
    strict: bool,
    out: &mut Slot,
    steps: &mut Steps<L>,
) -> bool
    requires short { words.now.longest ≤ 1000 }
    requires start { 0 < length words.now.automaton.moves }
    requires length { IsLengthOf words.now (length word.now) }
    ensures answer { IsWordAnswer words.now (IsAlikeFrom strict word.now) result out.old out.new }
    ensures moves { MovedAtMost L.IsNoted (length word.now * (2 * most_arcs words.now.automaton)) steps.old steps.new }
    ensures few { OnFalse result
        (MovedAtMost L.IsNoted (length word.now * most_arcs words.now.automaton) steps.old steps.new) }
{
    let walk = walk_along(words, word, steps);
    if walk.accepted && !strict {
        out.set(CellRef::Text(word));
        return true;
    }
    match walk.branch {
        Some(branch) => {
            put_branch(words, word, branch, out, steps);
            true
        }
        None => false,
    }
}

/// Puts the least of the words from a word on into a slot.
pub fn put_from<L: Ledger>(
    words: &Words,
    word: &[u32],
    strict: bool,
    out: &mut Slot,
    steps: &mut Steps<L>,
) -> bool
    ensures answer { IsWordAnswer words.now (IsFrom strict (cells.Text word.now)) result out.old out.new }
    ensures moves { MovedAtMost L.IsNoted (1000 * (2 * most_arcs words.now.automaton)) steps.old steps.new }
{
    if word.len() > words.longest as usize {
        return false;
    }
    let count = word.len() as u32;
    if has_length(words, count) && put_alike(words, word, strict, out, steps) {
        return true;
    }
    put_long(words, count + 1, out, steps)
}

/// Puts the least of the words from a cell on into a slot. Null is above all words, and other values are below them.
pub fn put_from_cell<L: Ledger>(
    words: &Words,
    bound: CellRef<'_>,
    strict: bool,
    out: &mut Slot,
    steps: &mut Steps<L>,
) -> bool
    ensures answer { IsWordAnswer words.now (IsFrom strict (cell_of bound.entry)) result out.old out.new }
    ensures moves { MovedAtMost L.IsNoted (1000 * (2 * most_arcs words.now.automaton)) steps.old steps.new }
{
    match bound {
        CellRef::Text(word) => put_from(words, word, strict, out, steps),
        CellRef::Null => false,
        CellRef::Bool(_) | CellRef::Number(_) | CellRef::Moment(_) => put_long(
            words, 0, out, steps,
        ),
    }
}
