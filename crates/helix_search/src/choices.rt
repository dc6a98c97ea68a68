//! The values of a field.

ghost use Rattle.helix_search.specs.Counting.{CountsGrow};
ghost use Rattle.helix_search.specs.Bounds.{IsValue};
ghost use Rattle.helix_values.specs.Class.{Class};
ghost use Rattle.helix_values.specs.Counts.{IsMarkOf};
ghost use Rattle.helix_values.specs.declared.cell.Cell.{Cell};
ghost use Rattle.helix_words.specs.Questions.{IsLeastAnswer};

use helix_base::{Ledger, Steps};
use helix_values::{Mark, Slot};

/// The values of one field, all of one class. `Has choices v` is that v is one of them.
pub trait Choices {
    ghost class: { Self → Class };

    ghost Has: { Self → Cell → Type 0 };

    /// Puts the least value that a mark admits into a slot. Where there is none, it answers false, and the slot is as
    /// it was.
    fn at_or_after<L: Ledger>(&self, mark: Mark<'_>, out: &mut Slot, steps: &mut Steps<L>) -> bool
        requires { IsMarkOf (class self.now) mark }
        ensures answer { IsLeastAnswer (Has self.now) mark.entry result out.old out.new }
        ensures counts { CountsGrow steps.old steps.new };

    ghost within: { (s : Self) (v : Cell) → Has s v → IsValue (class s) v };
}
