//! Steps of one cell of a row.

ghost use Rattle.std.specs.Prelude.{◌≡◌, ◌<◌, ◌≤◌, ◌+◌, [], length};
ghost use Rattle.helix_profile.specs.Satisfaction.{cell_at};
ghost use Rattle.helix_search.specs.Counting.{CountsGrow};
ghost use Rattle.helix_base.specs.Count.{raised};
ghost use Rattle.helix_relations.specs.Asking.{Begins, HasSlot, IsOwnFor, IsStep, OfField};
ghost use Rattle.helix_relations.specs.SearchGraph.{IsRelated};
ghost use Rattle.helix_relations.specs.Inner.Searched.{AreKept, region_of};

use crate::cells::{marked, step_cell};
use crate::region::Region;
use crate::search::{Fields, search};
use helix_base::{Ledger, Steps};
use helix_rows::Question;
use helix_search::Level;
use helix_values::RowBuf;

/// Makes the cell of a related field the least that a question admits, of those with which the cells of the fields
/// before it extend to a row. Where there is none, it answers false, and the row stays.
fn step_related<L: Ledger>(
    fields: &Fields<'_>,
    row: &mut RowBuf,
    level: usize,
    question: Question,
    levels: &mut [Level],
    steps: &mut Steps<L>,
) -> bool
    requires kept { AreKept fields.now levels.old }
    requires level { level < length fields.now.nodes.now }
    requires slot { OfField (region_of fields.now).fields level (HasSlot row.old) }
    requires begun { Begins (region_of fields.now) row.old level }
    requires own { OfField (region_of fields.now).fields level
        (λ field. IsOwnFor question field (cell_at row.old field.number)) }
    requires related { IsRelated (region_of fields.now) level }
    ensures step { IsStep (region_of fields.now) level question result row.old row.new }
    ensures counts { CountsGrow steps.old steps.new }
{
    let place = fields.nodes[level].place;
    let mark = marked(question, row.slot(place).view());
    if !search(fields, row, level, level, mark, levels, steps) {
        return false;
    }
    row.set(place, levels[0].candidate.view());
    true
}

/// The same of any field. One without neighbours is asked in place.
pub(crate) fn step_in<L: Ledger>(
    fields: &Fields<'_>,
    row: &mut RowBuf,
    level: usize,
    question: Question,
    levels: &mut [Level],
    steps: &mut Steps<L>,
) -> bool
    requires kept { AreKept fields.now levels.old }
    requires level { level < length fields.now.nodes.now }
    requires slot { OfField (region_of fields.now).fields level (HasSlot row.old) }
    requires begun { Begins (region_of fields.now) row.old level }
    requires own { OfField (region_of fields.now).fields level
        (λ field. IsOwnFor question field (cell_at row.old field.number)) }
    ensures step { IsStep (region_of fields.now) level question result row.old row.new }
    ensures counts { CountsGrow steps.old steps.new }
    ensures few { fields.now.relations.now ≡ [] → steps.new.counts.domain ≤ steps.old.counts.domain + 1 }
{
    let node = &fields.nodes[level];
    if node.neighbours.as_slice().is_empty() {
        return step_cell(node, row.slot_mut(node.place), question, steps);
    }
    step_related(fields, row, level, question, levels, steps)
}

impl Region {
    /// Makes the cell at a level of a row the least that a question admits, of those with which the cells of the first
    /// `level` fields extend to a row of the region. Where there is none, it answers false, and the row stays. It takes
    /// no memory, and looks at no later cell of the row.
    pub fn step<L: Ledger>(
        &mut self,
        row: &mut RowBuf,
        level: usize,
        question: Question,
        steps: &mut Steps<L>,
    ) -> bool
        requires level { level < length self.old.fields }
        requires slot { OfField self.old.fields level (HasSlot row.old) }
        requires begun { Begins self.old row.old level }
        requires own { OfField self.old.fields level
            (λ field. IsOwnFor question field (cell_at row.old field.number)) }
        ensures step { IsStep self.old level question result row.old row.new }
        ensures region { self.new ≡ record self.old { asked = raised self.old.asked } }
        ensures counts { CountsGrow steps.old steps.new }
        ensures few { self.old.relations ≡ [] → steps.new.counts.domain ≤ steps.old.counts.domain + 1 }
    {
        self.asked = self.asked.saturating_add(1);
        let fields = Fields {
            nodes: self.nodes.as_slice(),
            relations: self.relations.as_slice(),
        };
        step_in(
            &fields,
            row,
            level,
            question,
            self.levels.as_mut_slice(),
            steps,
        )
    }
}
