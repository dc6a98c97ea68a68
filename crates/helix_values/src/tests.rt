mod codes;
mod slots;

use crate::{Cell, CellRef, Cells, Kind, Row, cmp_cell, in_universe};
use helix_base::{Alphabet, Memory, Text};
use std::alloc::Global;
use std::cmp::Ordering;
use std::test::Fail;

/// Null, true and -7.
fn row(alloc: Global) -> Result<Row, Memory> {
    let mut row = Row::new(alloc);
    row.push(Cell::Null)?;
    row.push(Cell::Bool(true))?;
    row.push(Cell::Number(-7))?;
    Ok(row)
}

/// A day, and a text.
fn set(alloc: Global) -> Result<Cells, Memory> {
    let mut set = Cells::new(alloc);
    set.push(Cell::Moment(86_400_000))?;
    set.push(Cell::Text(Text::of(alloc, "é")?))?;
    Ok(set)
}

#[test]
fn cells_are_lent_and_copied(rt: HostRuntime) -> Result<(), Fail> {
    let row = row(rt.alloc())?.copy(rt.alloc())?;
    let wanted = [CellRef::Null, CellRef::Bool(true), CellRef::Number(-7)];
    assert_eq!(rt; row.as_slice().len(), wanted.len());
    for (cell, want) in row.as_slice().iter().zip(wanted.iter()) {
        assert_eq!(rt; cell.view(), *want);
    }
    let set = set(rt.alloc())?.copy(rt.alloc())?;
    let wanted = [CellRef::Moment(86_400_000), CellRef::Text(&[0xE9])];
    assert_eq!(rt; set.as_slice().len(), wanted.len());
    for (cell, want) in set.as_slice().iter().zip(wanted.iter()) {
        assert_eq!(rt; cell.view(), *want);
    }
    Ok(())
}

/// Texts, and how the first one compares with the second.
fn texts() -> [(&'static [u32], &'static [u32], Ordering); 5] {
    [
        (&[], &[0x61], Ordering::Less),
        (&[0x62], &[0x61, 0x61], Ordering::Less),
        (&[0x61, 0x62], &[0x61, 0x63], Ordering::Less),
        (&[0x62, 0x61], &[0x61, 0x62], Ordering::Greater),
        (&[0x61, 0x62], &[0x61, 0x62], Ordering::Equal),
    ]
}

#[test]
fn texts_are_ordered(rt: HostRuntime) {
    for (a, b, want) in texts() {
        let order = cmp_cell(CellRef::Text(a), CellRef::Text(b));
        assert_eq!(rt; order, want, "{a:?} and {b:?}");
        assert_eq!(rt; cmp_cell(CellRef::Text(a), CellRef::Null), Ordering::Less);
    }
}

#[test]
fn numbers_and_moments_are_ordered(rt: HostRuntime) {
    for (a, b, want) in [
        (-2, -1, Ordering::Less),
        (-1, 0, Ordering::Less),
        (7, 7, Ordering::Equal),
        (8, -9, Ordering::Greater),
    ] {
        let order = cmp_cell(CellRef::Moment(a), CellRef::Moment(b));
        assert_eq!(rt; order, want, "{a} and {b}");
        let (a, b) = (i128::from(a), i128::from(b));
        let order = cmp_cell(CellRef::Number(a), CellRef::Number(b));
        assert_eq!(rt; order, want, "{a} and {b}");
    }
}

#[test]
fn false_is_first_and_null_last(rt: HostRuntime) {
    let (no, yes) = (CellRef::Bool(false), CellRef::Bool(true));
    assert_eq!(rt; cmp_cell(no, yes), Ordering::Less);
    assert_eq!(rt; cmp_cell(CellRef::Null, yes), Ordering::Greater);
    assert_eq!(rt; cmp_cell(CellRef::Null, CellRef::Null), Ordering::Equal);
}

/// 1 and 10^20, in units of 10^-15.
const ONE: i128 = 1_000_000_000_000_000;

const GREATEST: i128 = 100_000_000_000_000_000_000 * ONE;

/// The last moment, and a day in milliseconds.
const LAST: i64 = 315_537_897_599_999;

const DAY: i64 = 86_400_000;

fn numbers() -> [(Kind, i128, bool); 11] {
    [
        (Kind::Integer, GREATEST, true),
        (Kind::Integer, -GREATEST, true),
        (Kind::Integer, GREATEST + ONE, false),
        (Kind::Integer, -GREATEST - ONE, false),
        (Kind::Integer, -ONE, true),
        (Kind::Integer, -1, false),
        (Kind::Decimal, -1, true),
        (Kind::Decimal, GREATEST, true),
        (Kind::Decimal, GREATEST + 1, false),
        (Kind::Decimal, -GREATEST, true),
        (Kind::Decimal, -GREATEST - 1, false),
    ]
}

fn moments() -> [(Kind, i64, bool); 9] {
    [
        (Kind::DateTime, 0, true),
        (Kind::DateTime, -1, false),
        (Kind::DateTime, LAST, true),
        (Kind::DateTime, LAST + 1, false),
        (Kind::Date, 0, true),
        (Kind::Date, 1, false),
        (Kind::Date, -DAY, false),
        (Kind::Date, LAST + 1 - DAY, true),
        (Kind::Date, LAST + 1, false),
    ]
}

#[test]
fn universes_of_numbers_and_moments_have_edges(rt: HostRuntime) {
    for (kind, units, want) in numbers() {
        assert_eq!(rt;
            in_universe(kind, CellRef::Number(units)),
            want,
            "{units} in {kind:?}"
        );
    }
    for (kind, at, want) in moments() {
        assert_eq!(rt;
            in_universe(kind, CellRef::Moment(at)),
            want,
            "{at} in {kind:?}"
        );
    }
}

/// An alphabet, a code, and whether it is a character.
fn characters() -> [(Alphabet, u32, bool); 15] {
    [
        (Alphabet::Basic, 0x1F, false),
        (Alphabet::Basic, 0x20, true),
        (Alphabet::Basic, 0x7E, true),
        (Alphabet::Basic, 0x7F, false),
        (Alphabet::Basic, 0xA0, false),
        (Alphabet::Latin, 0x9F, false),
        (Alphabet::Latin, 0xA0, true),
        (Alphabet::Latin, 0xFF, true),
        (Alphabet::Latin, 0x100, false),
        (Alphabet::Unicode, 0x85, false),
        (Alphabet::Unicode, 0xD7FF, true),
        (Alphabet::Unicode, 0xD800, false),
        (Alphabet::Unicode, 0xDFFF, false),
        (Alphabet::Unicode, 0x10_FFFF, true),
        (Alphabet::Unicode, 0x11_0000, false),
    ]
}

#[test]
fn universes_of_texts_have_edges(rt: HostRuntime) {
    for (alphabet, code, want) in characters() {
        let word = [0x61, code];
        let found = in_universe(Kind::Text(alphabet), CellRef::Text(&word));
        assert_eq!(rt; found, want, "{code} in {alphabet:?}");
    }
    let basic = Kind::Text(Alphabet::Basic);
    assert!(rt; in_universe(basic, CellRef::Text(&[])));
    assert!(rt; in_universe(basic, CellRef::Text(&[0x61; 1000])));
    assert!(rt; !in_universe(basic, CellRef::Text(&[0x61; 1001])));
}

#[test]
fn universes_have_values_of_one_class(rt: HostRuntime) {
    assert!(rt; in_universe(Kind::Boolean, CellRef::Bool(false)));
    assert!(rt; !in_universe(Kind::Boolean, CellRef::Number(0)));
    assert!(rt; !in_universe(Kind::Boolean, CellRef::Null));
    assert!(rt; !in_universe(Kind::Date, CellRef::Null));
}
