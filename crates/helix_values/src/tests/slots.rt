//! Slots and the rows of them.

use crate::{CellRef, RowBuf, Slot, cmp_row};
use std::cmp::Ordering;
use std::test::Fail;

#[test]
fn slots_hold_cells(rt: HostRuntime) {
    let longest = [0x10_FFFF; 1000];
    let cells = [
        CellRef::Text([].as_slice()),
        CellRef::Text(longest.as_slice()),
        CellRef::Text([0x61, 0x62].as_slice()),
        CellRef::Number(-7),
        CellRef::Text([0x63].as_slice()),
        CellRef::Bool(true),
        CellRef::Moment(86_400_000),
        CellRef::Null,
        CellRef::Text(longest.as_slice()),
    ];
    let mut slot = Slot::new();
    assert_eq!(rt; slot.view(), CellRef::Null);
    for cell in cells {
        if let CellRef::Text(codes) = cell {
            assert!(rt; codes.len() <= 1000);
        }
        slot.set(cell);
        assert_eq!(rt; slot.view(), cell);
    }
}

#[test]
fn slots_take_characters_one_by_one(rt: HostRuntime) {
    let mut slot = Slot::new();
    slot.truncate(0);
    assert_eq!(rt; slot.view(), CellRef::Null);
    slot.set(CellRef::Text([0x61, 0x62].as_slice()));
    slot.truncate(5);
    slot.push(0x63);
    assert_eq!(rt; slot.view(), CellRef::Text([0x61, 0x62, 0x63].as_slice()));
    slot.truncate(1);
    slot.push(0x10_FFFF);
    assert_eq!(rt; slot.view(), CellRef::Text([0x61, 0x10_FFFF].as_slice()));
    slot.truncate(0);
    assert_eq!(rt; slot.view(), CellRef::Text([].as_slice()));
}

#[test]
fn rows_are_ordered_by_the_first_difference(rt: HostRuntime) -> Result<(), Fail> {
    let cases = [
        (CellRef::Number(1), CellRef::Number(9), Ordering::Less),
        (CellRef::Number(2), CellRef::Null, Ordering::Greater),
        (CellRef::Number(2), CellRef::Number(0), Ordering::Equal),
        (CellRef::Null, CellRef::Number(0), Ordering::Greater),
    ];
    let mut second = RowBuf::open(rt.alloc(), 2)?;
    assert!(rt; second.len() == 2);
    assert_eq!(rt; second.slot(0).view(), CellRef::Null);
    second.set(0, CellRef::Number(2));
    second.set(1, CellRef::Number(0));
    for (a, b, want) in cases {
        let mut first = RowBuf::open(rt.alloc(), 2)?;
        assert!(rt; first.len() == 2);
        first.set(0, a);
        first.set(1, b);
        assert_eq!(rt; cmp_row(&first, &second), want, "{a:?}, {b:?}");
    }
    Ok(())
}
