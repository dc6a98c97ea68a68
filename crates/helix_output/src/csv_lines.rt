//! The lines of CSV.

ghost use Rattle.std.specs.Prelude.{◌≡◌, ◌+◌, ◌*◌, ◌<◌, ◌≤◌, ◌∷◌, [], ◌++◌, length, take, vec_len, vec_capacity};
ghost use Rattle.helix_output.specs.Csv.{csv_cells, csv_head_line};
ghost use Rattle.helix_output.specs.Fitting.{FitsFields};
ghost use Rattle.helix_output.specs.Inner.Cells.{AreJoined, end_of};
ghost use Rattle.helix_output.specs.Inner.Room.{AreShort, cell_room};
ghost use Rattle.helix_output.specs.Line.{AgreesOn, line_of, line_of_row};

use crate::cells::put_csv_cell;
use crate::line::LineBuf;
use crate::put::{put, put_comma, put_slice};
use helix_profile::Field;
use helix_values::RowBuf;

/// Makes the line the head: the names of the fields. It takes no memory.
pub fn csv_head(line: &mut LineBuf)
    ensures { line.new ≡ line_of line.old.fields (csv_head_line line.old.fields) }
{
    set_bytes(&mut line.bytes, line.head.as_slice());
    line.ends.clear();
}

/// Makes the line that of a row. It takes no memory.
pub fn csv_row(line: &mut LineBuf, row: &RowBuf)
    requires { FitsFields line.old.fields row.now }
    ensures { line.new ≡ line_of_row line.old.fields row.now }
{
    csv_next(line, row, 0);
}

/// Makes the line that of a row, where it is the line of a row that agrees with this one on the first
/// cells, `unchanged` of them. What they have in common is not written again. It takes no memory.
pub fn csv_next(line: &mut LineBuf, row: &RowBuf, unchanged: usize)
    requires fits { FitsFields line.old.fields row.now }
    requires within { unchanged ≤ length row.now }
    requires agrees { AgreesOn unchanged line.old row.now }
    ensures { line.new ≡ line_of_row line.old.fields row.now }
{
    keep_cells(&mut line.bytes, &mut line.ends, unchanged);
    put_cells(
        &mut line.bytes,
        &mut line.ends,
        line.fields.as_slice(),
        row,
        unchanged,
    );
    put(&mut line.bytes, b'\n');
}

/// Makes a buffer hold these bytes.
pub(crate) fn set_bytes(out: &mut Vec<u8>, bytes: &[u8])
    requires { length bytes.now ≤ vec_capacity out.old }
    ensures bytes { out.new.items ≡ bytes.now }
    ensures capacity { vec_capacity out.old ≤ vec_capacity out.new }
{
    out.clear();
    put_slice(out, bytes);
}

/// Leaves the first cells of a line, without what is after them.
fn keep_cells(bytes: &mut Vec<u8>, ends: &mut Vec<usize>, count: usize)
    requires count { count ≤ length ends.old.items }
    requires short { AreShort 0 ends.old.items }
    ensures bytes { bytes.new.items ≡ take (end_of count ends.old.items) bytes.old.items }
    ensures ends { ends.new.items ≡ take count ends.old.items }
    ensures short { AreShort 0 ends.new.items }
    ensures len { vec_len bytes.new ≤ cell_room * count }
    ensures ends_len { vec_len ends.new ≡ count }
    ensures capacity { vec_capacity bytes.old ≤ vec_capacity bytes.new }
    ensures ends_capacity { vec_capacity ends.old ≤ vec_capacity ends.new }
{
    bytes.truncate(end_of(ends.as_slice(), count));
    ends.truncate(count);
}

/// Where the first parts of a line end.
fn end_of(ends: &[usize], count: usize) -> usize
    requires { count ≤ length ends.now }
    ensures { result ≡ end_of count ends.now }
{
    if count == 0 { 0 } else { ends[count - 1] }
}

/// Puts the cells of a row from one on, after those before it, and where each ends.
fn put_cells(
    bytes: &mut Vec<u8>,
    ends: &mut Vec<usize>,
    fields: &[Field],
    row: &RowBuf,
    from: usize,
)
    requires fits { FitsFields fields.now row.now }
    requires from { from ≤ length fields.now }
    requires begun { AreJoined (take from (csv_cells fields.now row.now)) bytes.old.items ends.old.items }
    requires short { AreShort 0 ends.old.items }
    requires len { vec_len bytes.old ≤ cell_room * from }
    requires ends_len { vec_len ends.old ≡ from }
    requires room { cell_room * length fields.now ≤ vec_capacity bytes.old }
    requires ends_room { length fields.now ≤ vec_capacity ends.old }
    ensures whole { AreJoined (csv_cells fields.now row.now) bytes.new.items ends.new.items }
    ensures short { AreShort 0 ends.new.items }
    ensures len { vec_len bytes.new ≤ cell_room * length fields.now }
    ensures capacity { vec_capacity bytes.old ≤ vec_capacity bytes.new }
    ensures ends_capacity { vec_capacity ends.old ≤ vec_capacity ends.new }
{
    for i in from..fields.len() {
        put_comma(bytes, i);
        put_csv_cell(bytes, &fields[i], row.slot(i).view());
        put_end(ends, bytes.len());
    }
}

/// Puts where a cell ends.
fn put_end(ends: &mut Vec<usize>, at: usize)
    requires { vec_len ends.old < vec_capacity ends.old }
    ensures ends { ends.new.items ≡ ends.old.items ++ at ∷ [] }
    ensures len { vec_len ends.new ≡ vec_len ends.old + 1 }
    ensures capacity { vec_capacity ends.old ≤ vec_capacity ends.new }
{
    ends.push(at).unwrap();
}
