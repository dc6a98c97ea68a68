//! A row of slots.

ghost use Rattle.std.specs.Prelude.{◌≡◌, ◌<◌, length, replicate, slice_index_or, slice_set, IfOk};
ghost use Rattle.helix_values.specs.declared.cell.Cell.TheVariants as cells;
ghost use Rattle.std.specs.Borrow.{sem};
ghost use Rattle.helix_values.specs.Borrowing.{BorrowsSlot};
ghost use Rattle.helix_values.specs.Slot.{FitsSlot};
ghost use Rattle.helix_values.specs.View.{cell_of};

use crate::cell::CellRef;
use crate::slot::Slot;
use helix_base::Memory;
use std::alloc::Global;
use std::marker::Model;

/// A row whose cells lie in slots, one for each field, so that setting one takes no memory.
#[derive(Drop)]
pub struct RowBuf {
    slots: Vec<Slot>,
}

impl Model for RowBuf {
    ghost use Rattle.std.specs.Prelude.{List};
    ghost use Rattle.helix_values.specs.declared.cell.Cell.{Cell};

    ghost Value = { List Cell };

    ghost view = { λ row. row.slots.items };
}

impl RowBuf {
    /// A row of this many fields, all null.
    pub fn open(alloc: Global, fields: usize) -> Result<RowBuf, Memory>
        ensures { IfOk result (λ row. row ≡ replicate fields cells.Null) }
    {
        let mut slots = Vec::new(alloc);
        for _ in 0..fields {
            slots.push(Slot::new())?;
        }
        Ok(RowBuf { slots })
    }

    /// How many fields the row has.
    pub fn len(&self) -> usize
        ensures { result ≡ length self.now }
    {
        self.slots.len()
    }

    /// The slot of a field.
    pub fn slot(&self, i: usize) -> &Slot
        requires { i < length self.now }
        ensures { result.now ≡ slice_index_or self.now i cells.Null }
    {
        &self.slots[i]
    }

    /// Borrows the slot of a field for writing. The other cells stay.
    pub fn slot_mut(&mut self, i: usize) -> &mut Slot
        requires { i < length self.old }
        ensures* writes_back { sem 𝓛 (BorrowsSlot self.entry i result) }
        ensures value { result.now ≡ slice_index_or self.old i cells.Null }
    {
        &mut self.slots[i]
    }

    /// Sets the cell of a field.
    pub fn set(&mut self, i: usize, cell: CellRef<'_>)
        requires field { i < length self.old }
        requires fits { FitsSlot (cell_of cell) }
        ensures { self.new ≡ slice_set self.old i (cell_of cell.entry) }
    {
        self.slots[i].set(cell);
    }
}
