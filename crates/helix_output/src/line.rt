//! A buffer for one line.

ghost use Rattle.std.specs.Prelude.{◌≡◌, ◌≤◌, ◌↔◌, [], length, IfOk, IsTrue};
ghost use Rattle.helix_output.specs.Fitting.{FitsFields};
ghost use Rattle.helix_output.specs.Inner.Room.{line_room};
ghost use Rattle.helix_output.specs.Line.{line_of};

use crate::cells::CELL_ROOM;
use crate::fitting::fits_fields;
use crate::names::{copy_fields, csv_names, json_names};
use helix_base::{Bytes, List, Memory};
use helix_profile::{Field, Fields};
use helix_values::RowBuf;
use std::alloc::Global;
use std::marker::Model;

/// A line of the text of rows with these fields. It has room for the longest CSV line, and for the names as they are
/// written.
#[derive(Drop)]
pub struct LineBuf {
    pub(crate) fields: Fields,
    pub(crate) head: Vec<u8>,
    pub(crate) names: List<Bytes>,
    pub(crate) room: usize,
    pub(crate) bytes: Vec<u8>,
    // Where the cells of a CSV line end.
    pub(crate) ends: Vec<usize>,
    // The next JSON line, until it is whole.
    pub(crate) next: Vec<u8>,
}

impl Model for LineBuf {
    ghost use Rattle.helix_output.specs.Line.{Line};

    ghost Value = { Line };

    ghost use Rattle.std.specs.Prelude.{List as Items, ℕ, refl};
    ghost use Rattle.std.specs.Coded.{code_by, coded×, coded_list, coded_ℕ};
    ghost use Rattle.helix_profile.specs.declared.field.Field.{Field as FieldValue};
    ghost use Rattle.helix_profile.specs.contracts.field.Field as field;

    ghost coded = { code_by (Items FieldValue × (Items ℕ × Items ℕ))
        (coded× (coded_list field.the_row.coded) (coded× (coded_list coded_ℕ) (coded_list coded_ℕ)))
        (λ line. (line.fields, (line.bytes, line.ends)))
        (λ parts. record { fields = parts.0; bytes = parts.1.0; ends = parts.1.1 })
        (λ _. refl) };

    ghost use Rattle.std.specs.Prelude.{vec_capacity};
    ghost use Rattle.helix_output.specs.Inner.Room.{IsReady};

    ghost view = { λ line. record { fields = line.fields; bytes = line.bytes.items; ends = line.ends.items } };

    ghost invariant = { λ line. IsReady line.fields line.head.items line.names line.ends.items
        line.room (vec_capacity line.bytes) (vec_capacity line.ends) };
}

impl LineBuf {
    /// An empty line for rows of these fields.
    pub fn open(alloc: Global, fields: &[Field]) -> Result<LineBuf, Memory>
        ensures { IfOk result (λ line. line ≡ line_of fields.now []) }
    {
        let head = csv_names(alloc, fields)?;
        let names = json_names(alloc, fields)?;
        let room = room_for(fields.len(), head.len())?;
        let bytes = Vec::with_capacity(alloc, room)?;
        let ends = Vec::with_capacity(alloc, fields.len())?;
        Ok(LineBuf {
            fields: copy_fields(alloc, fields)?,
            head,
            names,
            room,
            bytes,
            ends,
            next: Vec::new(alloc),
        })
    }

    /// Whether a row has one cell for each field, null or a value of the field's kind.
    pub fn fits(&self, row: &RowBuf) -> bool
        ensures { IsTrue result ↔ FitsFields self.now.fields row.now }
    {
        fits_fields(self.fields.as_slice(), row)
    }

    /// The bytes of the line.
    pub fn bytes(&self) -> &[u8]
        ensures { result.now ≡ self.now.bytes }
    {
        self.bytes.as_slice()
    }
}

/// Room for so many cells, and for a head of this length.
fn room_for(cells: usize, head: usize) -> Result<usize, Memory>
    ensures line { IfOk result (λ room. line_room cells ≤ room) }
    ensures head { IfOk result (λ room. head ≤ room) }
{
    let Some(all) = cells.checked_mul(CELL_ROOM) else {
        return Err(Memory);
    };
    let Some(line) = all.checked_add(3) else {
        return Err(Memory);
    };
    Ok(line.max(head))
}
