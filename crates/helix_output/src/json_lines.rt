//! The lines of a list of JSON objects.

ghost use Rattle.std.specs.Prelude.{◌≡◌, ◌+◌, ◌≤◌, ◌∷◌, [], ◌++◌, length, map, vec_capacity, OnOk, OnErr};
ghost use Rattle.helix_values.specs.View.{cell_of};
ghost use Rattle.helix_output.specs.Csv.{joined};
ghost use Rattle.helix_output.specs.Fitting.{FitsFields, FitsKind};
ghost use Rattle.helix_output.specs.Inner.Cells.{comma_before};
ghost use Rattle.helix_output.specs.JsonLines.{json_break, json_cell, json_closing, json_members, json_name, json_opening, json_row_line};
ghost use Rattle.helix_output.specs.Line.{line_of};

use crate::cells::{CELL_ROOM, put_json_cell};
use crate::csv_lines::set_bytes;
use crate::line::LineBuf;
use crate::put::{put_comma, put_slice};
use helix_base::{Bytes, Memory};
use helix_profile::Field;
use helix_values::{CellRef, RowBuf};

/// Makes the line what opens the list. It takes no memory.
pub fn json_open(line: &mut LineBuf)
    ensures { line.new ≡ line_of line.old.fields json_opening }
{
    set_bytes(&mut line.bytes, b"[");
    line.ends.clear();
}

/// Makes the line what closes the list. It takes no memory.
pub fn json_close(line: &mut LineBuf)
    ensures { line.new ≡ line_of line.old.fields json_closing }
{
    set_bytes(&mut line.bytes, b"\n]\n");
    line.ends.clear();
}

/// Makes the line that of a row, with the line feed before it, and a comma unless it is the first.
pub fn json_row(line: &mut LineBuf, row: &RowBuf, first: bool) -> Result<(), Memory>
    requires { FitsFields line.old.fields row.now }
    ensures ok { OnOk result (line.new ≡ line_of line.old.fields (json_row_line first line.old.fields row.now)) }
    ensures err { OnErr result (line.new ≡ line.old) }
{
    let fields = line.fields.as_slice();
    write_row(
        &mut line.next,
        line.room,
        line.names.as_slice(),
        fields,
        row,
        first,
    )?;
    std::mem::swap(&mut line.bytes, &mut line.next);
    line.ends.clear();
    Ok(())
}

/// Makes a buffer hold the line of a row, and have this much room.
fn write_row(
    out: &mut Vec<u8>,
    room: usize,
    names: &[Bytes],
    fields: &[Field],
    row: &RowBuf,
    first: bool,
) -> Result<(), Memory>
    requires fits { FitsFields fields.now row.now }
    requires names { names.now ≡ map json_name fields.now }
    ensures line { OnOk result (out.new.items ≡ json_row_line first fields.now row.now) }
    ensures room { OnOk result (room ≤ vec_capacity out.new) }
{
    out.clear();
    out.extend_from_slice(row_opening(first))?;
    push_members(out, names, fields, row)?;
    out.push(b'}')?;
    out.reserve(room)?;
    Ok(())
}

/// What is before the first member of a row.
fn row_opening(first: bool) -> &'static [u8]
    ensures { result.now ≡ json_break first ++ 123 ∷ [] }
{
    if first { b"\n{" } else { b",\n{" }
}

/// Appends the members of a row.
fn push_members(
    out: &mut Vec<u8>,
    names: &[Bytes],
    fields: &[Field],
    row: &RowBuf,
) -> Result<(), Memory>
    requires fits { FitsFields fields.now row.now }
    requires names { names.now ≡ map json_name fields.now }
    ensures { OnOk result (out.new.items ≡ out.old.items ++ joined (json_members fields.now row.now)) }
{
    for i in 0..fields.len() {
        push_member(out, i, names[i].as_slice(), &fields[i], row.slot(i).view())?;
    }
    Ok(())
}

/// Appends a member, with a comma before it unless it is the first.
fn push_member(
    out: &mut Vec<u8>,
    i: usize,
    name: &[u8],
    field: &Field,
    cell: CellRef<'_>,
) -> Result<(), Memory>
    requires { FitsKind field.now.kind (cell_of cell) }
    ensures { OnOk result (out.new.items
        ≡ out.old.items ++ (comma_before i ++ (name.now ++ json_cell field.now (cell_of cell.entry)))) }
{
    out.reserve(name.len() + CELL_ROOM)?;
    put_comma(out, i);
    put_slice(out, name);
    put_json_cell(out, field, cell);
    Ok(())
}
