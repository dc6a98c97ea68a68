//! The members of a set file.

ghost use Rattle.std.specs.Prelude.{◌≤◌, length, IfOk, IfErr};
ghost use Rattle.helix_sets.specs.SetFiles.{ReadsSet, RefusesSet};

use crate::fault::SetFault;
use crate::marks::after_marks;
use crate::member::member;
use crate::records::{read, reader_of};
use csv::ByteRecord;
use helix_values::{Cells, Kind};
use std::alloc::Global;

/// Maximum length of a set file in bytes.
const MOST_BYTES: usize = 1_048_576;

/// Maximum number of members.
const MOST_MEMBERS: u32 = 10_000;

/// The members of a kind that the bytes of a set file list, one for each record, in order.
pub fn members(alloc: Global, kind: Kind, bytes: &[u8]) -> Result<Cells, SetFault>
    ensures read { IfOk result (ReadsSet kind bytes.now) }
    ensures refused { IfErr result (RefusesSet kind bytes.now) }
{
    if bytes.len() > MOST_BYTES {
        return Err(SetFault::TooLong);
    }
    listed(alloc, kind, bytes)
}

/// The members that bytes of a length in range list.
fn listed(alloc: Global, kind: Kind, bytes: &[u8]) -> Result<Cells, SetFault>
    requires { length bytes.now ≤ MOST_BYTES }
    ensures read { IfOk result (ReadsSet kind bytes.now) }
    ensures refused { IfErr result (RefusesSet kind bytes.now) }
{
    let mut reader = reader_of(alloc, after_marks(bytes));
    let mut row = ByteRecord::new(alloc);
    let mut cells = Cells::new(alloc);
    for count in 0..MOST_MEMBERS {
        if !read(&mut reader, &mut row)? {
            if count == 0 {
                return Err(SetFault::Empty);
            }
            return Ok(cells);
        }
        cells.push(member(alloc, kind, &row, count + 1)?)?;
    }
    if read(&mut reader, &mut row)? {
        Err(SetFault::TooMany)
    } else {
        Ok(cells)
    }
}
