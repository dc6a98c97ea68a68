//! What writing rows needs.

ghost use Rattle.std.specs.Prelude.{◌≡◌, IfOk, IfSome, None, Some, encode_utf8_all, length, option_map, string_bytes};
ghost use Rattle.helix_generate.specs.Inner.Steps.{IsReady};
ghost use Rattle.helix_profile.specs.Good.{AreCellsOf};
ghost use Rattle.helix_writing.specs.GoodRows.{IsFirstAbove};

use crate::cells::set_cells;
use helix_base::{Memory, Text};
use helix_command::Job;
use helix_loading::Loaded;
use helix_output::{Block, LineBuf};
use helix_values::{Row, RowBuf};
use helix_writing::GoodRows;
use std::alloc::Global;

/// All that is made before a data file is begun, and where the rows begin.
#[derive(Drop)]
pub struct Ready {
    pub rows: GoodRows,
    /// Whether some row is good.
    pub some: bool,
    /// Whether one is above the start: then it is the place, and the last row.
    pub first: bool,
    pub last: RowBuf,
    pub line: LineBuf,
    pub block: Block,
    pub identity: [u8; 32],
    pub output: String,
    pub token: Option<String>,
}

/// Makes all that writing rows above a start needs.
pub fn prepare(
    alloc: Global,
    job: &Job,
    loaded: Loaded,
    start: Option<Row>,
) -> Result<Ready, Memory>
    requires { IfSome start (AreCellsOf loaded.profile.fields) }
    ensures { IfOk result (IsReady job.now loaded start) }
{
    let output = job.output.written(alloc)?;
    let token = name_of(alloc, &job.token)?;
    let line = LineBuf::open(alloc, loaded.profile.fields())?;
    let block = Block::open(alloc, 65_536)?;
    let mut last = RowBuf::open(alloc, loaded.profile.fields().len())?;
    let mut rows = GoodRows::open(alloc, loaded.profile)?;
    let some = rows.advance(&mut last);
    let first = first_of(&mut rows, &mut last, some, start);
    Ok(Ready {
        rows,
        some,
        first,
        last,
        line,
        block,
        identity: loaded.identity,
        output,
        token,
    })
}

/// Whether a row is above the start, where it is known whether some row is good: then it is the place, and the last row.
fn first_of(rows: &mut GoodRows, last: &mut RowBuf, some: bool, start: Option<Row>) -> bool
    requires cells { IfSome start (AreCellsOf rows.old.profile.fields) }
    requires count { length last.old ≡ length rows.old.profile.fields }
    requires first { IsFirstAbove rows.old None last.old some }
    ensures first { IsFirstAbove rows.new start last.new result }
    ensures profile { rows.new.profile ≡ rows.old.profile }
{
    match start {
        None => some,
        Some(row) => seek(rows, last, row),
    }
}

/// Makes a row the place, then the next good one above it, if there is one, and says so.
fn seek(rows: &mut GoodRows, last: &mut RowBuf, row: Row) -> bool
    requires cells { AreCellsOf rows.old.profile.fields row }
    requires count { length last.old ≡ length rows.old.profile.fields }
    ensures first { IsFirstAbove rows.new (Some row) last.new result }
    ensures profile { rows.new.profile ≡ rows.old.profile }
{
    set_cells(last, row.as_slice());
    rows.seek_after(last);
    rows.advance(last)
}

/// The name of a file for the disk, if there is one.
fn name_of(alloc: Global, name: &Option<Text>) -> Result<Option<String>, Memory>
    ensures { IfOk result (λ written. option_map string_bytes written ≡ option_map encode_utf8_all name.now) }
{
    match name {
        None => Ok(None),
        Some(name) => Ok(Some(name.written(alloc)?)),
    }
}
