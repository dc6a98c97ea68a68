//! What tests build their fields and atoms from: data, as a table can hold it.

ghost use Rattle.std.specs.Prelude.{◌≡◌, IfOk};

use crate::SignedAtom;
use crate::atom::SignedAtoms;
use helix_base::{Memory, Text};
use helix_expr::{Expr, Exprs, Ranges, Regex};
use helix_profile::{Atom, Field, Test};
use helix_values::{Cell, Cells, Kind};
use sqlite_items::Boxed;
use std::alloc::Global;

/// A tenth, in units of 10^-15.
const TENTH: i128 = 100_000_000_000_000;

/// A day in milliseconds.
const DAY: i64 = 86_400_000;

/// The value of a cell.
#[derive(Clone, Copy, Debug)]
pub enum Value<'a> {
    Flag(bool),
    Tenths(i128),
    Day(i64),
    Text(&'a str),
    /// A character so many times.
    Times(char, u32),
}

/// Characters from a first to a last one, with the least and the greatest number of them.
pub type Piece = (char, char, u32, Option<u32>);

/// A test of one field.
#[derive(Clone, Copy, Debug)]
pub enum Check<'a> {
    EqualTo(Value<'a>),
    InSet(&'a [Value<'a>]),
    Matching(&'a [Piece]),
    /// One of the pieces.
    MatchingOne(&'a [Piece]),
    Containing(&'a [Piece]),
    BeginningWith(&'a [Piece]),
    OfLength(u32),
    LongerThan(u32),
    ShorterThan(u32),
    Above(Value<'a>),
    AtLeast(Value<'a>),
    Below(Value<'a>),
    AtMost(Value<'a>),
    OnGrid(u32),
}

pub fn field(alloc: Global, kind: Kind) -> Result<Field, Memory>
    ensures { IfOk result (λ field. field.kind ≡ kind) }
{
    Ok(Field {
        name: Text::of(alloc, "f")?,
        kind,
        nullable: false,
    })
}

fn times(alloc: Global, character: char, count: u32) -> Result<Text, Memory> {
    let mut text = Text::new(alloc);
    for _ in 0..count {
        text.push(character as u32)?;
    }
    Ok(text)
}

pub fn cell(alloc: Global, value: Value<'_>) -> Result<Cell, Memory> {
    match value {
        Value::Flag(flag) => Ok(Cell::Bool(flag)),
        Value::Tenths(count) => Ok(Cell::Number(count.wrapping_mul(TENTH))),
        Value::Day(number) => Ok(Cell::Moment(number.wrapping_mul(DAY))),
        Value::Text(string) => Ok(Cell::Text(Text::of(alloc, string)?)),
        Value::Times(character, count) => Ok(Cell::Text(times(alloc, character, count)?)),
    }
}

fn cells(alloc: Global, values: &[Value<'_>]) -> Result<Cells, Memory> {
    let mut all = Cells::new(alloc);
    for value in values {
        all.push(cell(alloc, *value)?)?;
    }
    Ok(all)
}

fn characters(alloc: Global, (first, last, least, most): Piece) -> Result<Expr, Memory> {
    let mut range = Ranges::new(alloc);
    range.push((first as u32, last as u32))?;
    Ok(Expr::Repeat(Boxed::new(alloc, Expr::Chars(range))?, least, most))
}

fn regex(alloc: Global, pieces: &[Piece], at_start: bool) -> Result<Regex, Memory> {
    let mut parts = Exprs::new(alloc);
    for piece in pieces {
        parts.push(characters(alloc, *piece)?)?;
    }
    Ok(Regex {
        expr: Expr::Seq(parts),
        at_start,
        at_end: false,
    })
}

fn one_of(alloc: Global, pieces: &[Piece]) -> Result<Regex, Memory> {
    let mut parts = Exprs::new(alloc);
    for piece in pieces {
        parts.push(characters(alloc, *piece)?)?;
    }
    Ok(Regex {
        expr: Expr::Alt(parts),
        at_start: false,
        at_end: false,
    })
}

fn test(alloc: Global, check: Check<'_>) -> Result<Test, Memory> {
    match check {
        Check::EqualTo(value) => Ok(Test::EqualTo(cell(alloc, value)?)),
        Check::InSet(values) => Ok(Test::InSet(cells(alloc, values)?)),
        Check::Matching(pieces) => Ok(Test::Matching(regex(alloc, pieces, false)?)),
        Check::MatchingOne(pieces) => Ok(Test::Matching(one_of(alloc, pieces)?)),
        Check::Containing(pieces) => Ok(Test::Containing(regex(alloc, pieces, false)?)),
        Check::BeginningWith(pieces) => Ok(Test::Containing(regex(alloc, pieces, true)?)),
        Check::OfLength(count) => Ok(Test::OfLength(count)),
        Check::LongerThan(count) => Ok(Test::LongerThan(count)),
        Check::ShorterThan(count) => Ok(Test::ShorterThan(count)),
        Check::Above(value) => Ok(Test::Above(cell(alloc, value)?)),
        Check::AtLeast(value) => Ok(Test::AtLeast(cell(alloc, value)?)),
        Check::Below(value) => Ok(Test::Below(cell(alloc, value)?)),
        Check::AtMost(value) => Ok(Test::AtMost(cell(alloc, value)?)),
        Check::OnGrid(level) => Ok(Test::OnGrid(level)),
    }
}

pub fn atom(alloc: Global, check: Check<'_>) -> Result<Atom, Memory> {
    Ok(Atom {
        field: 0,
        test: test(alloc, check)?,
    })
}

pub fn signed(alloc: Global, checks: &[(Check<'_>, bool)]) -> Result<SignedAtoms, Memory> {
    let mut all = SignedAtoms::new(alloc);
    for (check, sign) in checks {
        all.push(SignedAtom {
            atom: atom(alloc, *check)?,
            sign: *sign,
        })?;
    }
    Ok(all)
}
