//! The lines of a data file, in either format.

ghost use Rattle.std.specs.Prelude.{◌≡◌, ◌≤◌, [], length, IsSome, OnOk, OnErr};
ghost use Rattle.helix_output.specs.Fitting.{FitsFields};
ghost use Rattle.helix_output.specs.Line.{AgreesOn};
ghost use Rattle.helix_output.specs.declared.format.Format.TheVariants.{Csv, Json};
ghost use Rattle.helix_writing.specs.Inner.Lines.{line_in};
ghost use Rattle.helix_writing.specs.Inner.Sending.{HasSent, StopsSending};
ghost use Rattle.helix_writing.specs.Inner.Texts.{closing, opening};

use crate::data_file::WriteFault;
use helix_base::Memory;
use helix_output::{Block, Format, LineBuf, csv_head, csv_next, json_close, json_open, json_row};
use helix_outside::{Disk, Failed};
use helix_values::RowBuf;

/// Makes the line what opens the file. It takes no memory.
pub fn make_opening(line: &mut LineBuf, format: Format)
    ensures bytes { line.new.bytes ≡ opening format line.old.fields }
    ensures fields { line.new.fields ≡ line.old.fields }
{
    match format {
        Format::Csv => csv_head(line),
        Format::Json => json_open(line),
    }
}

/// Makes the line that of a row, where a line of CSV agrees with it on the first cells, `kept` of them. Only a line of
/// JSON takes memory.
pub fn make_row(
    line: &mut LineBuf,
    format: Format,
    row: &RowBuf,
    first: bool,
    kept: usize,
) -> Result<(), Memory>
    requires fits { FitsFields line.old.fields row.now }
    requires within { kept ≤ length row.now }
    requires agrees { format ≡ Csv → AgreesOn kept line.old row.now }
    ensures ok { OnOk result (line.new ≡ line_in format first line.old.fields row.now) }
    ensures err { OnErr result (format ≡ Json) }
    ensures fields { line.new.fields ≡ line.old.fields }
{
    match format {
        Format::Csv => {
            csv_next(line, row, kept);
            Ok(())
        }
        Format::Json => json_row(line, row, first),
    }
}

/// Puts what closes the file, and then what is owed. It takes no memory.
pub fn put_closing<D: Disk>(
    disk: &mut D,
    format: Format,
    line: &mut LineBuf,
    block: &mut Block,
) -> Result<(), Failed>
    requires open { IsSome (D.state disk.old).output }
    ensures ok { OnOk result (HasSent (D.state disk.old) block.old (closing format) [] (D.state disk.new)) }
    ensures err { OnErr result (StopsSending (D.state disk.old) block.old (closing format) WriteFault.Failed
        (D.state disk.new)) }
{
    match format {
        Format::Csv => block.flush(disk),
        Format::Json => {
            json_close(line);
            block.add(disk, line.bytes())?;
            block.flush(disk)
        }
    }
}
