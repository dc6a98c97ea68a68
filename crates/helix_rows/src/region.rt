//! Sets of rows over some of the fields of a profile, which are asked for their cells in ascending order.

ghost use Rattle.std.specs.Prelude.{◌≡◌, ◌↔◌, ◌<◌, ◌≤◌, ℕ, List, take, length, slice_index_or, slice_set, All};
ghost use Rattle.helix_base.specs.Count.{raised};
ghost use Rattle.helix_rows.specs.Regions.{piece, cell_at, class_at, number_at, AreCellsTo, Begins, Continues, FitsBound, IsCellFor, IsLeastStep, IsPieceOf, NoneFalls};
ghost use Rattle.helix_values.specs.Class.{Class};
ghost use Rattle.helix_values.specs.Counts.{IsMarkOf};
ghost use Rattle.helix_values.specs.declared.cell.Cell.{Cell};
ghost use Rattle.helix_words.specs.Questions.{IsLeastAnswer};

use helix_base::{Ledger, Steps};
use helix_values::{Mark, RowBuf, Slot};

/// What a region is asked for at a level that its row reaches.
#[derive(Clone, Copy, Debug, PartialEq, Eq)]
pub enum Question {
    /// The least cell.
    Start,
    /// The least cell that isn't below the row's own.
    At,
    /// The least cell above the row's own.
    After,
}

/// A set of rows over some fields, which are numbered as in the profile. Contracts see the fields, ascending, the class
/// of each, the rows, each with one cell a field in the order of the fields, and how many questions were asked, up to
/// 2^64 - 1. A question changes no more of them than that number. It needs cells for the classes of their fields.
pub trait Region {
    ghost fields: { Self → List ℕ };

    ghost classes: { Self → List Class };

    ghost HasRow: { Self → List Cell → Type 0 };

    ghost asked: { Self → ℕ };

    /// Puts the least cell that a mark admits into a slot, of those with which the cells of the first `level` fields
    /// go on to a row of the region. Answers false where there is none, and leaves the slot as it was. The prefix has
    /// a cell for each field of the profile, of which the others are of no account.
    fn least<L: Ledger>(
        &mut self,
        prefix: &RowBuf,
        level: usize,
        mark: Mark<'_>,
        out: &mut Slot,
        steps: &mut Steps<L>,
    ) -> bool
        requires level { level < length (fields self.old) }
        requires fields { All (λ field. field < length prefix.now) (fields self.old) }
        requires cells { AreCellsTo level (fields self.old) (classes self.old) prefix.now }
        requires mark { IsMarkOf (class_at (classes self.old) level) mark }
        requires bound { FitsBound mark }
        ensures answer { IsLeastAnswer
            (Continues (HasRow self.old) (piece (take level (fields self.old)) prefix.now)) mark.entry result
            out.old out.new }
        ensures fields { fields self.new ≡ fields self.old }
        ensures classes { classes self.new ≡ classes self.old }
        ensures rows { (cells : List Cell) → HasRow self.new cells ↔ HasRow self.old cells }
        ensures asked { asked self.new ≡ raised (asked self.old) }
        ensures grows { asked self.old ≤ asked self.new }
        ensures steps { NoneFalls steps.old.counts steps.new.counts };

    /// The same of a row whose cells of the first `level` fields go on to a row of the region, in place: its cell of
    /// the next field becomes the least one, the least one that isn't below it, or the least one above it. Where there
    /// is none, the row stays.
    fn step<L: Ledger>(
        &mut self,
        row: &mut RowBuf,
        level: usize,
        question: Question,
        steps: &mut Steps<L>,
    ) -> bool
        requires level { level < length (fields self.old) }
        requires fields { All (λ field. field < length row.old) (fields self.old) }
        requires begun { Begins (HasRow self.old) (piece (take level (fields self.old)) row.old) }
        requires own { IsCellFor (class_at (classes self.old) level)
            (cell_at row.old (number_at (fields self.old) level)) }
        ensures answer { IsLeastStep
            (Continues (HasRow self.old) (piece (take level (fields self.old)) row.old)) question result
            (cell_at row.old (number_at (fields self.old) level))
            (cell_at row.new (number_at (fields self.old) level)) }
        ensures others { row.new ≡ slice_set row.old (number_at (fields self.old) level)
            (cell_at row.new (number_at (fields self.old) level)) }
        ensures fields { fields self.new ≡ fields self.old }
        ensures classes { classes self.new ≡ classes self.old }
        ensures rows { (cells : List Cell) → HasRow self.new cells ↔ HasRow self.old cells }
        ensures asked { asked self.new ≡ raised (asked self.old) }
        ensures grows { asked self.old ≤ asked self.new }
        ensures steps { NoneFalls steps.old.counts steps.new.counts };

    /// How many questions were asked, up to 2^64 - 1.
    fn asked(&self) -> u64
        ensures { result ≡ asked self.now };

    // Each field has a class.
    ghost classed: { (r : Self) → length (classes r) ≡ length (fields r) };

    // A row has a cell for each field, and each is one for the field's class.
    ghost shaped: { (r : Self) (cells : List Cell) → HasRow r cells → IsPieceOf (fields r) (classes r) cells };
}
