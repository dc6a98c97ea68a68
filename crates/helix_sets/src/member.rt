//! The member that a record has.

ghost use Rattle.std.specs.Prelude.{◌≡◌, IfOk, IfErr};
ghost use Rattle.csv.specs.Records.{fields_of};
ghost use Rattle.helix_sets.specs.SetFiles.{first_field as field_of, IsMember};
ghost use Rattle.helix_sets.specs.Inner.Reading.{TellsOfField};

use crate::fault::SetFault;
use csv::ByteRecord;
use helix_base::Text;
use helix_texts::{CellFault, read_cell};
use helix_values::{Cell, Kind};
use std::alloc::Global;

/// The value that the first field of a record spells. The record's number is told by a fault.
pub fn member(alloc: Global, kind: Kind, row: &ByteRecord, at: u32) -> Result<Cell, SetFault>
    ensures value { IfOk result (IsMember kind (fields_of row.now)) }
    ensures refused { IfErr result (TellsOfField kind (field_of (fields_of row.now)) at) }
{
    let Ok(field) = str::from_utf8(first_field(row)) else {
        return Err(SetFault::NotUtf8 { at });
    };
    let text = Text::of(alloc, field)?;
    match read_cell(alloc, kind, &text) {
        Ok(cell) => Ok(cell),
        Err(CellFault::NotOfKind) => Err(SetFault::NotOfKind { at }),
        Err(CellFault::Memory) => Err(SetFault::Memory),
    }
}

/// The first field of a record, and no bytes where it has no field.
fn first_field(row: &ByteRecord) -> &[u8]
    ensures { result.now ≡ field_of (fields_of row.now) }
{
    match row.get(0) {
        Some(field) => field,
        None => &[],
    }
}
