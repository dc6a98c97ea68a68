//! What an order does on the disk.

ghost use Rattle.std.specs.Prelude.{◌≡◌, List, ℕ, map, string_bytes, MatchOption, length};
ghost use Rattle.helix_run.specs.Words.{order_of};
ghost use Rattle.helix_run.specs.Inner.Words.{names};
ghost use Rattle.helix_run.specs.Inner.Outcome.{EndsOrder, HasInput, EndsProfile, EndsField};
ghost use Rattle.helix_run.specs.Inner.Name.{field_of};

use crate::csv::csv_text;
use crate::output::write_file;
use crate::profile::{Field, read_profile};
use crate::reading::{ReadError, read_file};
use crate::rows::answer;
use crate::words::Order;
use helix_outside::Disk;
use std::alloc::Global;

/// How an order ends on the disk.
#[derive(Clone, Copy, Debug)]
pub enum Outcome {
    /// The words give no order.
    Usage,
    ReadFault,
    ProfileRefused,
    WriteFault,
    WantOfMemory,
    /// The output was written, with this number of rows.
    Done(u64),
}

/// Reads the profile, and writes its rows.
pub fn carry_out<D: Disk>(alloc: Global, order: Order<'_>, disk: &mut D) -> Outcome
    ensures { EndsOrder (names order.entry) (D.state disk.old) result (D.state disk.new) }
{
    match read_file(alloc, disk, order.profile) {
        Ok(bytes) => write_profile(alloc, order, &bytes, disk),
        Err(ReadError::Fault) => Outcome::ReadFault,
        Err(ReadError::Memory) => Outcome::WantOfMemory,
    }
}

/// Writes the rows of a profile that was read.
fn write_profile<D: Disk>(alloc: Global, order: Order<'_>, bytes: &[u8], disk: &mut D) -> Outcome
    ensures { EndsProfile (names order.entry) bytes.now (D.state disk.old) result (D.state disk.new) }
{
    match read_profile(bytes) {
        Some(field) => write_field(alloc, order, field, disk),
        None => Outcome::ProfileRefused,
    }
}

/// Writes the rows of a field.
fn write_field<D: Disk>(alloc: Global, order: Order<'_>, field: Field<'_>, disk: &mut D) -> Outcome
    ensures { EndsField (names order.entry) (field_of field.entry) (D.state disk.old) result (D.state disk.new) }
{
    let cells = answer(field.nullable);
    match csv_text(alloc, field.name, cells) {
        Ok(text) => match write_file(disk, order.output, &text) {
            Ok(()) => Outcome::Done(cells.len() as u64),
            Err(_) => Outcome::WriteFault,
        },
        Err(_) => Outcome::WantOfMemory,
    }
}
