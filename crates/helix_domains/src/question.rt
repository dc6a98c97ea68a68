//! The questions to the values of a domain.

ghost use Rattle.std.specs.Prelude.{◌≡◌, ◌↔◌, IsTrue};
ghost use Rattle.helix_domains.specs.Asking.{most_moves};
ghost use Rattle.helix_words.specs.Moves.{MovedAtMost};
ghost use Rattle.helix_words.specs.Questions.{IsLeastAnswer};
ghost use Rattle.helix_words.specs.Words.{IsWordCell};
ghost use Rattle.helix_domains.specs.Inner.Values.{AreInForm, HasValue};
ghost use Rattle.helix_values.specs.Class.{class_of_kind};
ghost use Rattle.helix_values.specs.Counts.{IsMarkOf};
ghost use Rattle.helix_values.specs.View.{cell_of};

use crate::grids::{first_moment, first_number, has_moment, has_number};
use crate::listed::{first_listed, is_listed};
use crate::order::order_of;
use crate::values::Values;
use helix_base::{Ledger, Quiet, Steps};
use helix_values::{CellRef, Kind, Mark, Slot};
use helix_words::Words;

/// Puts the least value of a kind that a mark admits into a slot.
pub fn least_value<L: Ledger>(
    kind: Kind,
    values: &Values,
    mark: Mark<'_>,
    out: &mut Slot,
    steps: &mut Steps<L>,
) -> bool
    requires form { AreInForm (class_of_kind kind) values.now }
    requires mark { IsMarkOf (class_of_kind kind) mark }
    ensures answer { IsLeastAnswer (HasValue values.now) mark.entry result out.old out.new }
    ensures moves { MovedAtMost L.IsNoted (most_moves (class_of_kind kind)) steps.old steps.new }
{
    match values {
        Values::Listed(cells) => first_listed(cells.as_slice(), mark, out),
        Values::Numbers(grid) => first_number(grid, mark, out),
        Values::Moments(grid) => first_moment(grid, mark, out),
        Values::Texts(words) => words.at_or_after(mark, out, steps),
    }
}

/// Whether a cell holds a word: the least one from the cell on is it.
fn has_text(words: &Words, value: CellRef<'_>) -> bool
    ensures { IsTrue result ↔ IsWordCell words.now (cell_of value.entry) }
{
    let mut slot = Slot::new();
    let mut steps = Steps::new(Quiet);
    if words.at_or_after(Mark::At(value), &mut slot, &mut steps) {
        order_of(slot.view(), value).is_eq()
    } else {
        false
    }
}

/// Whether a value is one of them.
pub fn has_value(kind: Kind, values: &Values, value: CellRef<'_>) -> bool
    requires { AreInForm (class_of_kind kind) values.now }
    ensures { IsTrue result ↔ HasValue values.now (cell_of value.entry) }
{
    match values {
        Values::Listed(cells) => is_listed(cells.as_slice(), value),
        Values::Numbers(grid) => has_number(grid, value),
        Values::Moments(grid) => has_moment(grid, value),
        Values::Texts(words) => has_text(words, value),
    }
}
