//! Written forms as texts.

ghost use Rattle.std.specs.Prelude.{◌≡◌, IfOk};
ghost use Rattle.helix_ladders.specs.Calendar.{IsMoment};
ghost use Rattle.helix_texts.specs.Texts.{IsSmall, cell_text as text_of_cell, moment_text as text_of_moment};
ghost use Rattle.helix_values.specs.Universe.{InUniverse};
ghost use Rattle.helix_values.specs.View.{cell_of};

use crate::texts::{put_moment, small_text};
use helix_base::{Memory, Text};
use helix_values::{CellRef, Kind};
use std::alloc::Global;

/// The written form of a value of a kind.
pub fn cell_text(alloc: Global, kind: Kind, cell: CellRef<'_>) -> Result<Text, Memory>
    requires { InUniverse kind (cell_of cell) }
    ensures { IfOk result (λ text. text ≡ text_of_cell kind (cell_of cell.entry)) }
{
    match cell {
        CellRef::Text(codes) => Text::from_codes(alloc, codes),
        _ => text_of_small(alloc, kind, cell),
    }
}

/// The written form of a date, or of a date and a time.
pub fn moment_text(alloc: Global, kind: Kind, at: i64) -> Result<Text, Memory>
    requires { IsMoment at }
    ensures { IfOk result (λ text. text ≡ text_of_moment kind at) }
{
    let mut bytes = [0; 23];
    let end = put_moment(&mut bytes, kind, at);
    text_of_bytes(alloc, &bytes[..end])
}

/// The written form of a truth value, a number or a moment.
fn text_of_small(alloc: Global, kind: Kind, cell: CellRef<'_>) -> Result<Text, Memory>
    requires value { InUniverse kind (cell_of cell) }
    requires small { IsSmall (cell_of cell) }
    ensures { IfOk result (λ text. text ≡ text_of_cell kind (cell_of cell.entry)) }
{
    let mut bytes = [0; 48];
    let end = small_text(kind, cell, &mut bytes);
    text_of_bytes(alloc, &bytes[..end])
}

/// The text of bytes, each of them a character.
fn text_of_bytes(alloc: Global, bytes: &[u8]) -> Result<Text, Memory>
    ensures { IfOk result (λ text. text ≡ bytes.now) }
{
    let mut text = Text::new(alloc);
    for byte in bytes {
        text.push(u32::from(*byte))?;
    }
    Ok(text)
}
