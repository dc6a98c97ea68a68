//! What the tests build their rows and constraints from: data, as a table can hold it.

use crate::profiles::patterns::{Piece, regex};
use helix_base::{Memory, Text};
use helix_profile::{
    Compare, Constraint, Constraints, Field, Fields, Test, is_good_for, satisfies,
};
use helix_values::{Cell, Cells, Kind, Row};
use std::alloc::Global;

/// One, in units of 10^-15.
const ONE: i128 = 1_000_000_000_000_000;

/// A day in milliseconds.
pub const DAY: i64 = 86_400_000;

/// 2024-01-02 and 2024-03-01, in days from 0001-01-01.
pub const SECOND_OF_JANUARY: i64 = 738_886;

pub const FIRST_OF_MARCH: i64 = 738_945;

/// The value of a cell.
#[derive(Clone, Copy)]
pub enum Value<'a> {
    Null,
    Flag(bool),
    Whole(i128),
    Hundredths(i128),
    Day(i64),
    Text(&'a str),
}

/// A test of one field.
#[derive(Clone, Copy)]
pub enum Check<'a> {
    IsNull(bool),
    EqualTo(Value<'a>),
    InSet(&'a [Value<'a>]),
    /// The characters of a text, and then the pieces.
    Matching(&'a str, &'a [Piece<'a>]),
    /// The text begins so.
    BeginningWith(&'a str),
    OfLength(u32),
    LongerThan(u32),
    ShorterThan(u32),
    Bound(Compare, Value<'a>),
    OnGrid(u32),
}

/// A step that makes a constraint, of those that the steps before it made.
#[derive(Clone, Copy)]
pub enum Step<'a> {
    Test(u32, Check<'a>),
    Related(u32, Compare, u32, i128),
    Not,
    /// Of the last two.
    AllOf,
    AnyOf,
    /// Of the last two, condition and then; or of the last three, with an else.
    If,
    IfElse,
}

fn cell(alloc: Global, value: Value<'_>) -> Result<Cell, Memory> {
    match value {
        Value::Null => Ok(Cell::Null),
        Value::Flag(flag) => Ok(Cell::Bool(flag)),
        Value::Whole(whole) => Ok(Cell::Number(whole.wrapping_mul(ONE))),
        Value::Hundredths(count) => Ok(Cell::Number(count.wrapping_mul(ONE / 100))),
        Value::Day(number) => Ok(Cell::Moment(number.wrapping_mul(DAY))),
        Value::Text(string) => Ok(Cell::Text(Text::of(alloc, string)?)),
    }
}

pub fn row(alloc: Global, values: &[Value<'_>]) -> Result<Row, Memory> {
    let mut row = Row::new(alloc);
    for value in values {
        row.push(cell(alloc, *value)?)?;
    }
    Ok(row)
}

fn cells(alloc: Global, values: &[Value<'_>]) -> Result<Cells, Memory> {
    let mut cells = Cells::new(alloc);
    for value in values {
        cells.push(cell(alloc, *value)?)?;
    }
    Ok(cells)
}

pub fn fields(alloc: Global, all: &[(&str, Kind, bool)]) -> Result<Fields, Memory> {
    let mut fields = Fields::new(alloc);
    for (name, kind, nullable) in all {
        let name = Text::of(alloc, name)?;
        fields.push(Field {
            name,
            kind: *kind,
            nullable: *nullable,
        })?;
    }
    Ok(fields)
}

fn bound(compare: Compare, cell: Cell) -> Test {
    match compare {
        Compare::Equal => Test::EqualTo(cell),
        Compare::Above => Test::Above(cell),
        Compare::AtLeast => Test::AtLeast(cell),
        Compare::Below => Test::Below(cell),
        Compare::AtMost => Test::AtMost(cell),
    }
}

/// A test that looks at one value.
fn test_of_value(alloc: Global, check: Check<'_>) -> Result<Test, Memory> {
    match check {
        Check::EqualTo(value) => Ok(Test::EqualTo(cell(alloc, value)?)),
        Check::InSet(values) => Ok(Test::InSet(cells(alloc, values)?)),
        Check::Bound(compare, value) => Ok(bound(compare, cell(alloc, value)?)),
        Check::OnGrid(level) => Ok(Test::OnGrid(level)),
        _ => Ok(Test::IsNull(true)),
    }
}

pub fn test(alloc: Global, check: Check<'_>) -> Result<Test, Memory> {
    match check {
        Check::IsNull(wanted) => Ok(Test::IsNull(wanted)),
        Check::Matching(word, pieces) => Ok(Test::Matching(regex(alloc, word, pieces)?)),
        Check::BeginningWith(word) => Ok(Test::Containing(regex(alloc, word, &[])?)),
        Check::OfLength(length) => Ok(Test::OfLength(length)),
        Check::LongerThan(length) => Ok(Test::LongerThan(length)),
        Check::ShorterThan(length) => Ok(Test::ShorterThan(length)),
        other => test_of_value(alloc, other),
    }
}

/// Whether the row of these values is good.
pub fn is_good(
    alloc: Global,
    fields: &Fields,
    constraints: &Constraints,
    values: &[Value<'_>],
) -> Result<bool, Memory> {
    let row = row(alloc, values)?;
    Ok(is_good_for(fields.as_slice(), constraints.as_slice(), row.as_slice()))
}

/// Whether the row of these values satisfies a constraint, and whether its negation.
pub fn signs(
    alloc: Global,
    constraint: &Constraint,
    values: &[Value<'_>],
) -> Result<(bool, bool), Memory> {
    let row = row(alloc, values)?;
    let plus = satisfies(constraint, row.as_slice(), true);
    let minus = satisfies(constraint, row.as_slice(), false);
    Ok((plus, minus))
}
