//! Questions to the cells of one field.

ghost use Rattle.std.specs.Prelude.{◌≡◌, ◌≤◌, ◌+◌, ◌↔◌, IsTrue};
ghost use Rattle.helix_rows.specs.Regions.{IsLeastStep};
ghost use Rattle.helix_search.specs.Counting.{CountsGrow};
ghost use Rattle.helix_values.specs.Marks.{IsAdmitted};
ghost use Rattle.helix_values.specs.View.{cell_of};
ghost use Rattle.helix_values.specs.declared.cell.Cell.{Cell};
ghost use Rattle.helix_values.specs.declared.cell.Cell.TheVariants as cells;
ghost use Rattle.helix_words.specs.Questions.{IsLeastAnswer};
ghost use Rattle.helix_relations.specs.Region.{IsRegionCell};
ghost use Rattle.helix_relations.specs.Asking.{IsCellForField, IsOwnFor, IsMarkFor};
ghost use Rattle.helix_relations.specs.Inner.Marking.{IsMarked};
ghost use Rattle.helix_relations.specs.Inner.Parts.{field_of, KnowsNull};

use crate::part::PartNode;
use helix_base::{Ledger, Steps};
use helix_rows::Question;
use helix_values::{CellRef, Mark, Slot};

/// The mark that admits what a question admits beside a row's own cell.
pub(crate) fn marked(question: Question, own: CellRef<'_>) -> Mark<'_>
    ensures { IsMarked question (cell_of own.entry) result }
{
    match question {
        Question::Start => Mark::Start,
        Question::At => Mark::At(own),
        Question::After => Mark::After(own),
    }
}

/// Whether a mark admits null, which is above all values.
fn admits_null(mark: Mark<'_>) -> bool
    ensures { IsTrue result ↔ IsAdmitted mark.entry cells.Null }
{
    match mark {
        Mark::Start | Mark::At(_) => true,
        Mark::After(CellRef::Null) => false,
        Mark::After(_) => true,
    }
}

/// Whether null is a cell of a field.
pub(crate) fn has_null(node: &PartNode) -> bool
    requires { KnowsNull node.now }
    ensures { IsTrue result ↔ IsRegionCell (field_of node.now) cells.Null }
{
    node.values.nullable && !node.values.no_null
}

/// Puts the least cell of a field that a mark admits into a slot. Where there is none, it answers false, and the slot
/// is as it was.
pub(crate) fn least_cell<L: Ledger>(
    node: &PartNode,
    mark: Mark<'_>,
    out: &mut Slot,
    steps: &mut Steps<L>,
) -> bool
    requires null { KnowsNull node.now }
    requires mark { IsMarkFor mark (field_of node.now) }
    ensures answer { IsLeastAnswer (IsRegionCell (field_of node.now)) mark.entry result out.old out.new }
    ensures counts { CountsGrow steps.old steps.new }
    ensures few { steps.new.counts.domain ≤ steps.old.counts.domain + 1 }
{
    if node.values.ask(mark, out, steps) {
        return true;
    }
    if has_null(node) && admits_null(mark) {
        out.set(CellRef::Null);
        return true;
    }
    false
}

/// Whether a field has a cell. Where null is one, the domain isn't asked.
pub(crate) fn has_cell<L: Ledger>(node: &PartNode, steps: &mut Steps<L>) -> bool
    requires { KnowsNull node.now }
    ensures answer { IsTrue result ↔ ((v : Cell) × IsRegionCell (field_of node.now) v) }
    ensures counts { CountsGrow steps.old steps.new }
    ensures few { steps.new.counts.domain ≤ steps.old.counts.domain + 1 }
{
    if has_null(node) {
        return true;
    }
    let mut slot = Slot::new();
    least_cell(node, Mark::Start, &mut slot, steps)
}

/// Whether a cell is one of a field. The domain isn't asked.
pub(crate) fn is_cell(node: &PartNode, cell: CellRef<'_>) -> bool
    requires { KnowsNull node.now }
    ensures { IsTrue result ↔ IsRegionCell (field_of node.now) (cell_of cell.entry) }
{
    match cell {
        CellRef::Null => has_null(node),
        value => !node.values.only_null && node.values.domain.contains(value),
    }
}

/// The same in place, from a copy of the slot's own cell.
fn step_from_copy<L: Ledger>(
    node: &PartNode,
    slot: &mut Slot,
    question: Question,
    steps: &mut Steps<L>,
) -> bool
    requires null { KnowsNull node.now }
    requires own { IsCellForField (field_of node.now) slot.old }
    ensures answer { IsLeastStep (IsRegionCell (field_of node.now)) question result slot.old slot.new }
    ensures counts { CountsGrow steps.old steps.new }
    ensures few { steps.new.counts.domain ≤ steps.old.counts.domain + 1 }
{
    let mut own = Slot::new();
    own.set(slot.view());
    least_cell(node, marked(question, own.view()), slot, steps)
}

/// Makes a slot the least cell of a field that a question admits. Where there is none, it answers false, and the slot
/// is as it was.
pub(crate) fn step_cell<L: Ledger>(
    node: &PartNode,
    slot: &mut Slot,
    question: Question,
    steps: &mut Steps<L>,
) -> bool
    requires null { KnowsNull node.now }
    requires own { IsOwnFor question (field_of node.now) slot.old }
    ensures answer { IsLeastStep (IsRegionCell (field_of node.now)) question result slot.old slot.new }
    ensures counts { CountsGrow steps.old steps.new }
    ensures few { steps.new.counts.domain ≤ steps.old.counts.domain + 1 }
{
    if question == Question::Start {
        return least_cell(node, Mark::Start, slot, steps);
    }
    match slot.view() {
        CellRef::Bool(truth) => {
            least_cell(node, marked(question, CellRef::Bool(truth)), slot, steps)
        }
        CellRef::Number(units) => {
            least_cell(node, marked(question, CellRef::Number(units)), slot, steps)
        }
        CellRef::Moment(millis) => {
            least_cell(node, marked(question, CellRef::Moment(millis)), slot, steps)
        }
        CellRef::Text(_) => step_from_copy(node, slot, question, steps),
        CellRef::Null => step_from_null(node, slot, question, steps),
    }
}

/// The same of a slot that holds null. Nothing is above it.
fn step_from_null<L: Ledger>(
    node: &PartNode,
    slot: &mut Slot,
    question: Question,
    steps: &mut Steps<L>,
) -> bool
    requires null { KnowsNull node.now }
    requires own { slot.old ≡ cells.Null }
    ensures answer { IsLeastStep (IsRegionCell (field_of node.now)) question result slot.old slot.new }
    ensures counts { CountsGrow steps.old steps.new }
    ensures few { steps.new.counts.domain ≤ steps.old.counts.domain + 1 }
{
    match question {
        Question::Start => least_cell(node, Mark::Start, slot, steps),
        Question::At => least_cell(node, Mark::At(CellRef::Null), slot, steps),
        Question::After => false,
    }
}
