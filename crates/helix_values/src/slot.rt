//! A cell that takes no memory when it is set.

ghost use Rattle.std.specs.Prelude.{◌≡◌, ◌≤◌, length};
ghost use Rattle.helix_values.specs.declared.cell.Cell.TheVariants as cells;
ghost use Rattle.helix_values.specs.Slot.{FitsSlot, HasRoom, lengthened, shortened};
ghost use Rattle.helix_values.specs.View.{cell_of};

use crate::cell::CellRef;
use crate::held::Held;
use arrayvec::ArrayVec;
use std::marker::Model;

/// A cell whose text, of at most 1,000 code points, lies in the slot itself.
#[derive(Drop)]
pub struct Slot {
    held: Held,
    // It counts for a text alone.
    text: ArrayVec<u32, 1000>,
}

impl Model for Slot {
    ghost use Rattle.helix_values.specs.declared.cell.Cell.{Cell};
    ghost use Rattle.helix_values.specs.Slot.{cell_held};

    ghost Value = { Cell };

    ghost view = { λ s. cell_held s.held s.text.items };
}

impl Slot {
    /// A slot that holds null.
    pub fn new() -> Slot
        ensures { result ≡ cells.Null }
    {
        Slot {
            held: Held::Null,
            text: ArrayVec::new(),
        }
    }

    /// Makes the slot hold a cell.
    pub fn set(&mut self, cell: CellRef<'_>)
        requires { FitsSlot (cell_of cell) }
        ensures { self.new ≡ cell_of cell.entry }
    {
        match cell {
            CellRef::Null => self.held = Held::Null,
            CellRef::Bool(truth) => self.held = Held::Bool(truth),
            CellRef::Number(units) => self.held = Held::Number(units),
            CellRef::Moment(millis) => self.held = Held::Moment(millis),
            CellRef::Text(codes) => {
                overwrite(&mut self.text, codes);
                self.held = Held::Text;
            }
        }
    }

    /// Puts one more character behind the text that the slot holds.
    pub fn push(&mut self, code: u32)
        requires { HasRoom self.old }
        ensures { self.new ≡ lengthened self.old code }
    {
        self.text.push(code);
    }

    /// Leaves the first characters of the text that the slot holds, all where it has no more. Another cell stays.
    pub fn truncate(&mut self, count: usize)
        ensures { self.new ≡ shortened self.old count }
    {
        self.text.truncate(count);
    }

    /// The cell that the slot holds.
    pub fn view(&self) -> CellRef<'_>
        ensures { cell_of result ≡ self.now }
    {
        match self.held {
            Held::Null => CellRef::Null,
            Held::Bool(truth) => CellRef::Bool(truth),
            Held::Number(units) => CellRef::Number(units),
            Held::Moment(millis) => CellRef::Moment(millis),
            Held::Text => CellRef::Text(self.text.as_slice()),
        }
    }
}

/// Makes a text these code points. What both have room for is overwritten, since to clear a text
/// writes over all of it.
fn overwrite(text: &mut ArrayVec<u32, 1000>, codes: &[u32])
    requires { length codes.now ≤ 1000 }
    ensures { text.new.items ≡ codes.now }
{
    text.truncate(codes.len());
    let common = text.len();
    text.as_mut_slice().copy_from_slice(&codes[..common]);
    if common < codes.len() {
        text.try_extend_from_slice(&codes[common..]).unwrap();
    }
}
