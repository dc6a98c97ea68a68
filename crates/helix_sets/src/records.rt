//! The records of bytes, one after another.

ghost use Rattle.std.specs.Prelude.{[], IfOk};
ghost use Rattle.csv.specs.Reading.{strip_bom};
ghost use Rattle.csv.specs.Records.{fields_of};
ghost use Rattle.helix_sets.specs.Inner.Reading.{HasRead, TellsOfRead};

use csv::{ByteRecord, Reader, ReaderBuilder};
use helix_base::Memory;
use std::alloc::Global;

/// A reader of the records of bytes without a header, whose fields may be any number.
pub fn reader_of(alloc: Global, bytes: &[u8]) -> Reader<&[u8]>
    ensures { HasRead (strip_bom bytes.now) [] result }
{
    ReaderBuilder::new()
        .has_headers(false)
        .flexible(true)
        .from_reader(alloc, bytes)
}

/// Reads the next record, and answers whether there is one.
pub fn read(reader: &mut Reader<&[u8]>, row: &mut ByteRecord) -> Result<bool, Memory>
    ensures { IfOk result (TellsOfRead reader.old reader.new (fields_of row.new)) }
{
    match reader.read_byte_record(row) {
        Ok(found) => Ok(found),
        Err(_) => Err(Memory),
    }
}
