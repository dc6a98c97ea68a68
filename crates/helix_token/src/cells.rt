//! The cells of a token's strings.

ghost use Rattle.std.specs.Prelude.{◌≡◌, ◌≢◌, ◌⊎◌, ◌∷◌, ℕ, IfErr, IfOk, IfSome, MatchOption, [], List as Items};
ghost use Rattle.helix_values.specs.Universe.{InUniverse};
ghost use Rattle.helix_values.specs.declared.cell.Cell.{Cell as Value};
ghost use Rattle.helix_texts.specs.Texts.{cell_text as text_of_cell};
ghost use Rattle.helix_profile.specs.Good.{AreCellsOf, IsCellOf};
ghost use Rattle.helix_token.specs.Broken.{IsFirstFaulty};
ghost use Rattle.helix_token.specs.Inner.Faults.{IsCellFault};
ghost use Rattle.helix_token.specs.Token.{cell_string, cell_strings};
ghost use Rattle.helix_token.specs.declared.fault.TokenFault.TheVariants as faults;

use crate::fault::TokenFault;
use helix_base::{Memory, Text};
use helix_profile::Field;
use helix_texts::{CellFault, cell_text, read_cell};
use helix_values::{Cell, Kind, Row};
use std::alloc::Global;

/// The row of these strings.
pub(crate) fn row_of(alloc: Global, fields: &[Field], strings: &[Text]) -> Result<Row, TokenFault>
    ensures cells { IfOk result (λ row. AreCellsOf fields.now row) }
    ensures strings { IfOk result (λ row. strings.now ≡ cell_strings fields.now row) }
    ensures fault { IfErr result (λ fault. fault ≢ faults.Memory → IsCellFault fields.now strings.now fault) }
{
    let mut row = Row::new(alloc);
    for i in 0..strings.len() {
        if i >= fields.len() {
            return Err(TokenFault::Cell { index: i as u64 });
        }
        let Some(cell) = cell_of_string(alloc, &fields[i], &strings[i])? else {
            return Err(TokenFault::Cell { index: i as u64 });
        };
        row.push(cell)?;
    }
    if strings.len() < fields.len() {
        return Err(TokenFault::Cell {
            index: strings.len() as u64,
        });
    }
    Ok(row)
}

/// The cell of a field that has this string.
fn cell_of_string(alloc: Global, field: &Field, string: &Text) -> Result<Option<Cell>, Memory>
    ensures { IfOk result (λ cell. MatchOption cell
        ((value : Value) → IsCellOf field.now value → string.now ≢ cell_string field.now value)
        (λ value. IsCellOf field.now value × (string.now ≡ cell_string field.now value))) }
{
    match string.codes() {
        [first] if *first == 'n' as u32 && field.nullable => Ok(Some(Cell::Null)),
        [first, rest @ ..] if *first == '=' as u32 => {
            value_of(alloc, field.kind, &Text::from_codes(alloc, rest)?)
        }
        _ => Ok(None),
    }
}

/// The value of a kind whose written form a text is.
fn value_of(alloc: Global, kind: Kind, text: &Text) -> Result<Option<Cell>, Memory>
    ensures { IfOk result (λ cell. MatchOption cell
        ((value : Value) → InUniverse kind value → text.now ≢ text_of_cell kind value)
        (λ value. InUniverse kind value × (text.now ≡ text_of_cell kind value))) }
{
    match read_cell(alloc, kind, text) {
        Ok(cell) => if_written(alloc, kind, cell, text),
        Err(CellFault::NotOfKind) => Ok(None),
        Err(CellFault::Memory) => Err(Memory),
    }
}

/// The value, where the text is its written form.
fn if_written(alloc: Global, kind: Kind, cell: Cell, text: &Text) -> Result<Option<Cell>, Memory>
    requires { InUniverse kind cell }
    ensures { IfOk result (λ found. MatchOption found (text.now ≢ text_of_cell kind cell)
        (λ value. (value ≡ cell) × (text.now ≡ text_of_cell kind cell))) }
{
    let written = cell_text(alloc, kind, cell.view())?;
    if written.codes() == text.codes() {
        Ok(Some(cell))
    } else {
        Ok(None)
    }
}
