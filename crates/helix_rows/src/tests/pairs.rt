//! A region that is a list of rows of two cells.

ghost use Rattle.std.proofs.Common.{refl};
ghost use Rattle.std.specs.Prelude.{◌≡◌, ◌↔◌, ◌<◌, [], ◌∷◌, List, IsTrue, length, take};
ghost use Rattle.helix_rows.specs.Inner.Listing.{cell_or_null, GoesOn, IsListed, IsOnly, IsTaken, pairs_shaped};
ghost use Rattle.helix_rows.specs.Regions.{number_at, piece};
ghost use Rattle.helix_values.specs.Marks.{IsAdmitted};
ghost use Rattle.helix_values.specs.Order.{CellLess};
ghost use Rattle.helix_values.specs.View.{cell_of};
ghost use Rattle.helix_values.specs.declared.cell.Cell.{Cell};

use crate::follow::is_same;
use crate::state::mark_of;
use crate::{Question, Region};
use helix_base::{Ledger, Steps};
use helix_values::{CellRef, Mark, RowBuf, Slot};

/// The cells of two fields: numbers, or null.
pub(crate) type Pair = (Option<i128>, Option<i128>);

/// A list of rows over two fields.
#[derive(Drop)]
pub(crate) struct Pairs {
    pub(crate) fields: (u32, u32),
    pub(crate) rows: Vec<Pair>,
    pub(crate) asked: u64,
}

/// A number or null as a cell.
pub(crate) fn cell(value: Option<i128>) -> CellRef<'static>
    ensures { cell_of result ≡ cell_or_null value }
{
    match value {
        Some(number) => CellRef::Number(number),
        None => CellRef::Null,
    }
}

/// Whether a number or null is before a cell.
fn is_below(value: Option<i128>, bound: CellRef<'_>) -> bool
    ensures { IsTrue result ↔ CellLess (cell_or_null value) (cell_of bound.entry) }
{
    match (value, bound) {
        (Some(number), CellRef::Number(other)) => number < other,
        (Some(_), CellRef::Bool(_)) => false,
        (Some(_), _) => true,
        (None, _) => false,
    }
}

/// Whether a cell is before a number or null.
fn is_above(value: Option<i128>, bound: CellRef<'_>) -> bool
    ensures { IsTrue result ↔ CellLess (cell_of bound.entry) (cell_or_null value) }
{
    match (value, bound) {
        (Some(number), CellRef::Number(other)) => other < number,
        (Some(_), CellRef::Bool(_)) => true,
        (Some(_), _) => false,
        (None, CellRef::Null) => false,
        (None, _) => true,
    }
}

/// Whether a mark admits a number or null.
fn admits(mark: Mark<'_>, value: Option<i128>) -> bool
    ensures { IsTrue result ↔ IsAdmitted mark.entry (cell_or_null value) }
{
    match mark {
        Mark::Start => true,
        Mark::At(bound) => !is_below(value, bound),
        Mark::After(bound) => is_above(value, bound),
    }
}

/// The cell of a pair at a level, where the pair has the row's cell before it.
fn next_of(pair: Pair, fields: (u32, u32), row: &RowBuf, level: usize) -> Option<Option<i128>>
    requires level { level < 2 }
    requires field { fields.0 < length row.now }
    ensures { IsOnly (GoesOn pair (piece (take level (fields.0 ∷ fields.1 ∷ [])) row.now)) result }
{
    if level == 0 {
        return Some(pair.0);
    }
    if is_same(row.slot(fields.0 as usize).view(), cell(pair.0)) {
        return Some(pair.1);
    }
    None
}

/// The field at a level.
fn field_at(fields: (u32, u32), level: usize) -> usize
    requires { level < 2 }
    ensures { result ≡ number_at (fields.0 ∷ fields.1 ∷ []) level }
{
    if level == 0 {
        return fields.0 as usize;
    }
    fields.1 as usize
}

/// Takes one more cell where it is admitted and less than the one so far.
fn take_less(next: Option<Option<i128>>, mark: Mark<'_>, found: bool, out: &mut Slot) -> bool
    ensures { IsTaken (IsAdmitted mark.entry) next found result out.old out.new }
{
    match next {
        Some(value) => {
            if !admits(mark, value) {
                return found;
            }
            if found && !is_below(value, out.view()) {
                return true;
            }
            out.set(cell(value));
            true
        }
        None => found,
    }
}

impl Region for Pairs {
    ghost use Rattle.helix_rows.specs.Inner.Listing.{IsListed};
    ghost use Rattle.helix_values.specs.Class.{numbers};

    ghost fields = { λ r. r.fields.0 ∷ r.fields.1 ∷ [] };

    ghost classes = { λ r. numbers ∷ numbers ∷ [] };

    ghost HasRow = { λ r. IsListed r.rows.items };

    ghost asked = { λ r. r.asked };

    fn least<L: Ledger>(
        &mut self,
        prefix: &RowBuf,
        level: usize,
        mark: Mark<'_>,
        out: &mut Slot,
        _steps: &mut Steps<L>,
    ) -> bool {
        self.asked = self.asked.saturating_add(1);
        let mut found = false;
        let rows = self.rows.as_slice();
        for pair in rows {
            let next = next_of(*pair, self.fields, prefix, level);
            found = take_less(next, mark, found, out);
        }
        found
    }

    fn step<L: Ledger>(
        &mut self,
        row: &mut RowBuf,
        level: usize,
        question: Question,
        steps: &mut Steps<L>,
    ) -> bool {
        let field = field_at(self.fields, level);
        let mut best = Slot::new();
        let mark = mark_of(question, row.slot(field).view());
        let found = self.least(row, level, mark, &mut best, steps);
        if !found {
            return false;
        }
        row.set(field, best.view());
        true
    }

    fn asked(&self) -> u64 {
        self.asked
    }

    ghost classed = { λ r. refl };

    ghost shaped = { λ r cells listed. pairs_shaped r.fields.0 r.fields.1 r.rows.items cells listed };
}
