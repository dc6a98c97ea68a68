//! A region as a set of rows that can be walked over.

use crate::region::Region;
use helix_base::{Ledger, Steps};
use helix_rows::Question;
use helix_values::{Mark, RowBuf, Slot};

impl helix_rows::Region for Region {
    ghost use Rattle.helix_relations.specs.Pieces.{IsRegionPiece, classes_of};
    ghost use Rattle.helix_relations.specs.Region.{numbers_of};
    ghost use Rattle.helix_relations.specs.PieceCells.{classed, shaped};

    ghost fields = { λ region. numbers_of region.fields };

    ghost classes = { λ region. classes_of region.fields };

    ghost HasRow = { IsRegionPiece };

    ghost asked = { λ region. region.asked };

    fn least<L: Ledger>(
        &mut self,
        prefix: &RowBuf,
        level: usize,
        mark: Mark<'_>,
        out: &mut Slot,
        steps: &mut Steps<L>,
    ) -> bool {
        let _count = self.asked();
        self.least(prefix, level, mark, out, steps)
    }

    fn step<L: Ledger>(
        &mut self,
        row: &mut RowBuf,
        level: usize,
        question: Question,
        steps: &mut Steps<L>,
    ) -> bool {
        let _count = self.asked();
        self.step(row, level, question, steps)
    }

    fn asked(&self) -> u64 {
        self.asked
    }

    ghost classed = { λ region. classed region };

    ghost shaped = { λ region cells is. shaped region cells is };
}
