//! Writing the rows of a run.

ghost use Rattle.std.specs.Prelude.{◌≡◌, ◌≤◌, [], List, Option, IsSome, Some, true, IfOk, IfErr, OnOk};
ghost use Rattle.helix_profile.specs.Good.{IsGood};
ghost use Rattle.helix_values.specs.declared.cell.Cell.{Cell};
ghost use Rattle.helix_writing.specs.GoodRows.{IsFirstAbove};
ghost use Rattle.helix_writing.specs.Inner.Putting.{PutsRows, StopsRows};
ghost use Rattle.helix_writing.specs.Inner.Sent.{HasSentRows, StopsSentRows};
ghost use Rattle.helix_writing.specs.Writing.{WritesRows};

use crate::data_file::{DataFile, WriteFault, Written};
use crate::good_rows::GoodRows;
use crate::lines::{make_opening, put_closing};
use crate::put::put_rows;
use helix_output::{Block, Format, LineBuf};
use helix_outside::Disk;
use helix_values::RowBuf;

/// Writes the rows above a start into the data file. `first` says whether there is a first one: then `last` is that row,
/// and the place. Rows are copied to `last` no more often than the limit needs. Only lines of JSON take memory.
pub fn write_rows<D: Disk>(
    disk: &mut D,
    file: DataFile<'_>,
    rows: &mut GoodRows,
    first: bool,
    last: &mut RowBuf,
    line: &mut LineBuf,
    block: &mut Block,
) -> Result<Written, WriteFault>
    requires limit { 1 ≤ file.limit }
    requires fields { line.old.fields ≡ rows.old.profile.fields }
    requires place { first ≡ true → rows.old.row ≡ Some last.old }
    requires good { first ≡ true → IsGood rows.old.profile last.old }
    requires none_owed { block.old ≡ [] }
    ensures profile { OnOk result (rows.new.profile ≡ rows.old.profile) }
    ensures writes { (start : Option (List Cell)) → IsFirstAbove rows.old start last.old first
        → WritesRows file.entry rows.old.profile start (D.state disk.old) result last.new (D.state disk.new) }
{
    disk.begin_write(file.name, file.replace)?;
    let written = send_rows(disk, file, rows, first, last, line, block)?;
    disk.finish()?;
    Ok(written)
}

/// Sends the text of the rows to the open output.
fn send_rows<D: Disk>(
    disk: &mut D,
    file: DataFile<'_>,
    rows: &mut GoodRows,
    first: bool,
    last: &mut RowBuf,
    line: &mut LineBuf,
    block: &mut Block,
) -> Result<Written, WriteFault>
    requires open { IsSome (D.state disk.old).output }
    requires limit { 1 ≤ file.limit }
    requires fields { line.old.fields ≡ rows.old.profile.fields }
    requires place { first ≡ true → rows.old.row ≡ Some last.old }
    requires good { first ≡ true → IsGood rows.old.profile last.old }
    requires none_owed { block.old ≡ [] }
    ensures ok { IfOk result (λ written. (start : Option (List Cell)) → IsFirstAbove rows.old start last.old first
        → HasSentRows file.entry rows.old.profile start (D.state disk.old) written last.new (D.state disk.new)) }
    ensures err { IfErr result (λ stop. (start : Option (List Cell)) → IsFirstAbove rows.old start last.old first
        → StopsSentRows file.entry rows.old.profile start (D.state disk.old) stop (D.state disk.new)) }
    ensures open { OnOk result (IsSome (D.state disk.new).output) }
    ensures profile { OnOk result (rows.new.profile ≡ rows.old.profile) }
{
    make_opening(line, file.format);
    block.add(disk, line.bytes())?;
    let written = put_some(
        disk,
        file.format,
        file.limit,
        rows,
        first,
        last,
        line,
        block,
    )?;
    put_closing(disk, file.format, line, block)?;
    Ok(written)
}

/// Puts the rows, if there is a first one.
fn put_some<D: Disk>(
    disk: &mut D,
    format: Format,
    limit: u64,
    rows: &mut GoodRows,
    first: bool,
    last: &mut RowBuf,
    line: &mut LineBuf,
    block: &mut Block,
) -> Result<Written, WriteFault>
    requires open { IsSome (D.state disk.old).output }
    requires limit { 1 ≤ limit }
    requires fields { line.old.fields ≡ rows.old.profile.fields }
    requires place { first ≡ true → rows.old.row ≡ Some last.old }
    requires good { first ≡ true → IsGood rows.old.profile last.old }
    ensures ok { IfOk result (λ written. (start : Option (List Cell)) → IsFirstAbove rows.old start last.old first
        → PutsRows format rows.old.profile start limit (D.state disk.old) block.old written last.new block.new
        (D.state disk.new)) }
    ensures err { IfErr result (λ stop. (start : Option (List Cell)) → IsFirstAbove rows.old start last.old first
        → StopsRows format rows.old.profile start limit (D.state disk.old) block.old stop (D.state disk.new)) }
    ensures open { OnOk result (IsSome (D.state disk.new).output) }
    ensures profile { OnOk result (rows.new.profile ≡ rows.old.profile) }
{
    if !first {
        return Ok(Written {
            rows: 0,
            cut: false,
        });
    }
    put_rows(disk, format, limit, rows, last, line, block)
}
