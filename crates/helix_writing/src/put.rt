//! Putting rows, one after the other.

ghost use Rattle.std.specs.Prelude.{◌≡◌, ◌≤◌, ◌<◌, List, [], length, IfOk, IfErr, Some, IsSome, OnOk, true, false};
ghost use Rattle.helix_output.specs.Fitting.{FitsFields};
ghost use Rattle.helix_output.specs.Line.{AgreesOn};
ghost use Rattle.helix_output.specs.declared.format.Format.TheVariants.{Csv};
ghost use Rattle.helix_profile.specs.Good.{IsGood};
ghost use Rattle.helix_values.specs.declared.cell.Cell.{Cell};
ghost use Rattle.helix_writing.specs.Inner.Lines.{line_in};
ghost use Rattle.helix_writing.specs.Inner.Putting.{IsOfFormat, PutsMost, PutsRest, StandsAt, StopsPutting};
ghost use Rattle.helix_writing.specs.Inner.Sending.{HasSent, StopsSending};
ghost use Rattle.helix_writing.specs.Inner.Texts.{line_for};

use crate::data_file::{WriteFault, Written};
use crate::good_rows::GoodRows;
use crate::lines::make_row;
use helix_output::{Block, Format, LineBuf};
use helix_outside::Disk;
use helix_values::RowBuf;

/// Puts the first row, which is the place, and the rows above it, up to the limit.
pub fn put_rows<D: Disk>(
    disk: &mut D,
    format: Format,
    limit: u64,
    rows: &mut GoodRows,
    last: &mut RowBuf,
    line: &mut LineBuf,
    block: &mut Block,
) -> Result<Written, WriteFault>
    requires open { IsSome (D.state disk.old).output }
    requires limit { 1 ≤ limit }
    requires fields { line.old.fields ≡ rows.old.profile.fields }
    requires place { rows.old.row ≡ Some last.old }
    requires good { IsGood rows.old.profile last.old }
    ensures ok { IfOk result (λ written. PutsRest format rows.old.profile last.old
        (line_for format true rows.old.profile.fields last.old) limit (D.state disk.old) block.old written last.new
        block.new (D.state disk.new)) }
    ensures err { IfErr result (λ stop. StopsPutting format rows.old.profile last.old
        (line_for format true rows.old.profile.fields last.old) limit (D.state disk.old) block.old stop
        (D.state disk.new)) }
    ensures open { OnOk result (IsSome (D.state disk.new).output) }
    ensures profile { OnOk result (rows.new.profile ≡ rows.old.profile) }
{
    put_row(disk, format, last, true, 0, line, block)?;
    put_rest(disk, format, limit, rows, last, line, block)
}

/// Puts a row, where a line of CSV agrees with it on the first cells, `kept` of them.
fn put_row<D: Disk>(
    disk: &mut D,
    format: Format,
    row: &RowBuf,
    first: bool,
    kept: usize,
    line: &mut LineBuf,
    block: &mut Block,
) -> Result<(), WriteFault>
    requires open { IsSome (D.state disk.old).output }
    requires fits { FitsFields line.old.fields row.now }
    requires within { kept ≤ length row.now }
    requires agrees { format ≡ Csv → AgreesOn kept line.old row.now }
    ensures ok { OnOk result (HasSent (D.state disk.old) block.old (line_for format first line.old.fields row.now)
        block.new (D.state disk.new)) }
    ensures line { OnOk result (line.new ≡ line_in format first line.old.fields row.now) }
    ensures err { IfErr result (λ stop. StopsSending (D.state disk.old) block.old
        (line_for format first line.old.fields row.now) stop (D.state disk.new)) }
    ensures memory { IfErr result (IsOfFormat format) }
{
    make_row(line, format, row, first, kept)?;
    block.add(disk, line.bytes())?;
    Ok(())
}

/// Puts the rows above the first one, which is the place and whose line was put.
fn put_rest<D: Disk>(
    disk: &mut D,
    format: Format,
    limit: u64,
    rows: &mut GoodRows,
    last: &mut RowBuf,
    line: &mut LineBuf,
    block: &mut Block,
) -> Result<Written, WriteFault>
    requires open { IsSome (D.state disk.old).output }
    requires limit { 1 ≤ limit }
    requires stands { StandsAt format rows.old line.old last.old }
    ensures ok { IfOk result (λ written. PutsRest format rows.old.profile last.old [] limit (D.state disk.old) block.old
        written last.new block.new (D.state disk.new)) }
    ensures err { IfErr result (λ stop. StopsPutting format rows.old.profile last.old [] limit (D.state disk.old)
        block.old stop (D.state disk.new)) }
    ensures open { OnOk result (IsSome (D.state disk.new).output) }
    ensures profile { OnOk result (rows.new.profile ≡ rows.old.profile) }
{
    let count = put_most(disk, format, limit, rows, line, block)?;
    if count == limit {
        return Ok(Written {
            rows: limit,
            cut: rows.step().is_some(),
        });
    }
    if limit - count > 1 || !rows.advance(last) {
        return Ok(Written {
            rows: count,
            cut: false,
        });
    }
    put_row(disk, format, last, false, 0, line, block)?;
    Ok(Written {
        rows: limit,
        cut: rows.step().is_some(),
    })
}

/// Puts the rows above the first one but for the last that the limit allows, and answers how many they are with that
/// first one.
fn put_most<D: Disk>(
    disk: &mut D,
    format: Format,
    limit: u64,
    rows: &mut GoodRows,
    line: &mut LineBuf,
    block: &mut Block,
) -> Result<u64, WriteFault>
    requires open { IsSome (D.state disk.old).output }
    requires limit { 1 ≤ limit }
    requires stands { (row : List Cell) × StandsAt format rows.old line.old row }
    ensures ok { IfOk result (λ count. (row : List Cell) → StandsAt format rows.old line.old row
        → PutsMost format rows.old.profile row limit (D.state disk.old) block.old count rows.new block.new
        (D.state disk.new)) }
    ensures err { IfErr result (λ stop. (row : List Cell) → StandsAt format rows.old line.old row
        → StopsPutting format rows.old.profile row [] limit (D.state disk.old) block.old stop (D.state disk.new)) }
    ensures open { OnOk result (IsSome (D.state disk.new).output) }
    ensures profile { OnOk result (rows.new.profile ≡ rows.old.profile) }
    ensures fields { OnOk result (line.new.fields ≡ line.old.fields) }
{
    let mut count = 1;
    while limit - count > 1 {
        let Some(kept) = rows.step() else {
            return Ok(count);
        };
        put_row(disk, format, rows.row(), false, kept, line, block)?;
        count += 1;
    }
    Ok(count)
}
