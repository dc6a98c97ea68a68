//! Values of a kind.

ghost use Rattle.std.specs.Prelude.{IfOk, IsSomeAnd};
ghost use Rattle.helix_operands.specs.Values.{GivesValue, Reads, text_of};
ghost use Rattle.helix_texts.specs.Spelling.{Spells};
ghost use Rattle.helix_values.specs.Class.{moments, numbers, strings};
ghost use Rattle.helix_values.specs.declared.kind.Kind.TheVariants as kinds;

use helix_base::{Memory, Text};
use helix_json::Json;
use helix_texts::{CellFault, read_cell};
use helix_values::{Cell, Kind};
use std::alloc::Global;

/// The value of a kind that a JSON value gives.
pub fn value_in(alloc: Global, kind: Kind, json: &Json) -> Result<Option<Cell>, Memory>
    ensures { IfOk result (Reads (GivesValue kind json.now)) }
{
    match kind {
        Kind::Boolean => Ok(truth_in(json)),
        Kind::Integer => number_in(alloc, kind, json),
        Kind::Decimal => number_in(alloc, kind, json),
        Kind::Text(_) => string_in(alloc, kind, json),
        Kind::Date => string_in(alloc, kind, json),
        Kind::DateTime => string_in(alloc, kind, json),
        Kind::Code(_) => string_in(alloc, kind, json),
    }
}

fn truth_in(json: &Json) -> Option<Cell>
    ensures { Reads (GivesValue kinds.Boolean json.now) result }
{
    match json {
        Json::Bool(truth) => Some(Cell::Bool(*truth)),
        Json::Null => None,
        Json::Number(_) => None,
        Json::Str(_) => None,
        Json::List(_) => None,
        Json::Object(_) => None,
    }
}

/// The value that a number spells.
fn number_in(alloc: Global, kind: Kind, json: &Json) -> Result<Option<Cell>, Memory>
    ensures { IfOk result (Reads (λ value. IsSomeAnd (text_of numbers json.now) (λ text. Spells kind text value))) }
{
    match json {
        Json::Number(text) => spelled(alloc, kind, text),
        Json::Null => Ok(None),
        Json::Bool(_) => Ok(None),
        Json::Str(_) => Ok(None),
        Json::List(_) => Ok(None),
        Json::Object(_) => Ok(None),
    }
}

/// The value that a string spells.
fn string_in(alloc: Global, kind: Kind, json: &Json) -> Result<Option<Cell>, Memory>
    ensures strings { IfOk result (Reads (λ value. IsSomeAnd (text_of strings json.now)
        (λ text. Spells kind text value))) }
    ensures moments { IfOk result (Reads (λ value. IsSomeAnd (text_of moments json.now)
        (λ text. Spells kind text value))) }
{
    match json {
        Json::Str(text) => spelled(alloc, kind, text),
        Json::Null => Ok(None),
        Json::Bool(_) => Ok(None),
        Json::Number(_) => Ok(None),
        Json::List(_) => Ok(None),
        Json::Object(_) => Ok(None),
    }
}

/// The value of a kind that a text spells.
fn spelled(alloc: Global, kind: Kind, text: &Text) -> Result<Option<Cell>, Memory>
    ensures { IfOk result (Reads (Spells kind text.now)) }
{
    match read_cell(alloc, kind, text) {
        Ok(cell) => Ok(Some(cell)),
        Err(CellFault::NotOfKind) => Ok(None),
        Err(CellFault::Memory) => Err(Memory),
    }
}
