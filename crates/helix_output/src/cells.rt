//! The cells of rows, put into a buffer that has room for them.

ghost use Rattle.std.specs.Prelude.{◌≡◌, ◌+◌, ◌≤◌, ◌++◌, codes, vec_len, vec_capacity};
ghost use Rattle.helix_values.specs.Universe.{InUniverse};
ghost use Rattle.helix_values.specs.View.{cell_of};
ghost use Rattle.helix_texts.specs.Texts.{IsSmall, cell_text};
ghost use Rattle.helix_output.specs.Csv.{csv_cell};
ghost use Rattle.helix_output.specs.Fitting.{FitsKind};
ghost use Rattle.helix_output.specs.Inner.Room.{longest_cell};
ghost use Rattle.helix_output.specs.JsonLines.{json_cell};

use crate::put::{put, put_csv_string, put_json_string, put_slice};
use helix_profile::Field;
use helix_texts::small_text;
use helix_values::{CellRef, Kind};

/// The most bytes of a cell with the comma before it: a text of 1,000 characters of four bytes, in quotes.
pub(crate) const CELL_ROOM: usize = 4003;

/// Puts a cell of CSV.
pub(crate) fn put_csv_cell(out: &mut Vec<u8>, field: &Field, cell: CellRef<'_>)
    requires fits { FitsKind field.now.kind (cell_of cell) }
    requires room { vec_len out.old + longest_cell ≤ vec_capacity out.old }
    ensures bytes { out.new.items ≡ out.old.items ++ csv_cell field.now (cell_of cell.entry) }
    ensures len { vec_len out.new ≤ vec_len out.old + longest_cell }
    ensures capacity { vec_capacity out.old ≤ vec_capacity out.new }
{
    match cell {
        CellRef::Null => {}
        CellRef::Text(text) => put_csv_string(out, text),
        CellRef::Bool(_) | CellRef::Number(_) | CellRef::Moment(_) => {
            put_small(out, field.kind, cell);
        }
    }
}

/// Puts a cell of JSON.
pub(crate) fn put_json_cell(out: &mut Vec<u8>, field: &Field, cell: CellRef<'_>)
    requires fits { FitsKind field.now.kind (cell_of cell) }
    requires room { vec_len out.old + longest_cell ≤ vec_capacity out.old }
    ensures bytes { out.new.items ≡ out.old.items ++ json_cell field.now (cell_of cell.entry) }
    ensures len { vec_len out.new ≤ vec_len out.old + longest_cell }
    ensures capacity { vec_capacity out.old ≤ vec_capacity out.new }
{
    match cell {
        CellRef::Null => put_slice(out, b"null"),
        CellRef::Text(text) => put_json_string(out, text),
        CellRef::Moment(_) => {
            put(out, b'"');
            put_small(out, field.kind, cell);
            put(out, b'"');
        }
        CellRef::Bool(_) | CellRef::Number(_) => put_small(out, field.kind, cell),
    }
}

/// Puts the written form of a truth value, a number or a moment.
fn put_small(out: &mut Vec<u8>, kind: Kind, cell: CellRef<'_>)
    requires value { InUniverse kind (cell_of cell) }
    requires small { IsSmall (cell_of cell) }
    requires room { vec_len out.old + 48 ≤ vec_capacity out.old }
    ensures bytes { out.new.items ≡ out.old.items ++ cell_text kind (cell_of cell.entry) }
    ensures len { vec_len out.new ≤ vec_len out.old + 48 }
    ensures capacity { vec_capacity out.old ≤ vec_capacity out.new }
{
    let mut text = [0; 48];
    let end = small_text(kind, cell, &mut text);
    put_slice(out, &text[..end]);
}
