use crate::{SetFault, members};
use helix_base::{Alphabet, Memory};
use helix_values::{Cell, CellRef, Kind};
use std::alloc::Global;
use std::test::Fail;

const ONE: CellRef<'static> = CellRef::Number(1_000_000_000_000_000);

const TWO: CellRef<'static> = CellRef::Number(2_000_000_000_000_000);

const TWELVE: CellRef<'static> = CellRef::Number(12_000_000_000_000_000);

const TEXT: Kind = Kind::Text(Alphabet::Unicode);

/// Whether cells are these, in order.
fn are(cells: &[Cell], wanted: &[CellRef<'_>]) -> bool {
    if cells.len() != wanted.len() {
        return false;
    }
    for (cell, want) in cells.iter().zip(wanted) {
        if cell.view() != *want {
            return false;
        }
    }
    true
}

/// Whether bytes list these members of a kind.
fn lists(
    alloc: Global,
    kind: Kind,
    bytes: &[u8],
    wanted: &[CellRef<'_>],
) -> Result<bool, SetFault> {
    let cells = members(alloc, kind, bytes)?;
    Ok(are(cells.as_slice(), wanted))
}

/// Why bytes list no members of a kind.
fn fault(alloc: Global, kind: Kind, bytes: &[u8]) -> Option<SetFault> {
    members(alloc, kind, bytes).err()
}

/// Lines that are `1`, then more bytes.
fn ones(alloc: Global, count: usize, more: &[u8]) -> Result<Vec<u8>, Memory> {
    let mut bytes = Vec::new(alloc);
    for _ in 0..count {
        bytes.push(b'1')?;
        bytes.push(b'\n')?;
    }
    bytes.extend_from_slice(more)?;
    Ok(bytes)
}

#[test]
fn lists_members(rt: HostRuntime) -> Result<(), Fail> {
    let cases: [(Kind, &[u8], &[CellRef<'_>]); 12] = [
        (Kind::Integer, b"2\n1,x\n2\n", &[TWO, ONE, TWO]),
        (Kind::Integer, b"2\n\n\n1", &[TWO, ONE]),
        (Kind::Integer, b"1\r2\r\n1\r\n", &[ONE, TWO, ONE]),
        (Kind::Integer, b"\"1\"\n\"2\",\"x\ny\"\n1", &[ONE, TWO, ONE]),
        (Kind::Integer, b"\"1\"2\n", &[TWELVE]),
        (Kind::Integer, b"\xEF\xBB\xBF1\n2", &[ONE, TWO]),
        (Kind::Integer, b"\xEF\xBB\xBF\xEF\xBB\xBF\"2\"", &[TWO]),
        (Kind::Decimal, b"1.0\n20e-1", &[ONE, TWO]),
        (
            Kind::Boolean,
            b"true\nfalse",
            &[CellRef::Bool(true), CellRef::Bool(false)],
        ),
        (Kind::Date, b"0001-01-02", &[CellRef::Moment(86_400_000)]),
        (
            TEXT,
            b",x\n\"\"\n\"a\"\"b\"",
            &[
                CellRef::Text(&[]),
                CellRef::Text(&[]),
                CellRef::Text(&[97, 34, 98]),
            ],
        ),
        (
            TEXT,
            b"\xC3\xA9\n a",
            &[CellRef::Text(&[233]), CellRef::Text(&[32, 97])],
        ),
    ];
    for (kind, bytes, wanted) in cases {
        assert_eq!(rt;
            lists(rt.alloc(), kind, bytes, wanted),
            Ok(true),
            "{bytes:?}"
        );
    }
    Ok(())
}

#[test]
fn tells_the_first_fault(rt: HostRuntime) -> Result<(), Fail> {
    let cases: [(&[u8], SetFault); 11] = [
        (b"", SetFault::Empty),
        (b"\n\r\n", SetFault::Empty),
        (b"\xEF\xBB\xBF", SetFault::Empty),
        (b"1\nx\n", SetFault::NotOfKind { at: 2 }),
        (b"1\n\"2\n1", SetFault::NotOfKind { at: 2 }),
        (b"1,2\n,1\n", SetFault::NotOfKind { at: 2 }),
        (b"1\n\n 2", SetFault::NotOfKind { at: 2 }),
        (b"1\n2\n\xFF", SetFault::NotUtf8 { at: 3 }),
        (b"1,\xFF\n1\xEF\xBB\xBF\n", SetFault::NotOfKind { at: 2 }),
        (b"x\n\xFF", SetFault::NotOfKind { at: 1 }),
        (b"\xC3\nx", SetFault::NotUtf8 { at: 1 }),
    ];
    for (bytes, why) in cases {
        assert_eq!(rt;
            fault(rt.alloc(), Kind::Integer, bytes),
            Some(why),
            "{bytes:?}"
        );
    }
    Ok(())
}

#[test]
fn limits(rt: HostRuntime) -> Result<(), Fail> {
    let cases: [(usize, &[u8], Option<SetFault>); 5] = [
        (10_000, b"", None),
        (10_000, b"x", Some(SetFault::TooMany)),
        (9_999, b"x\n1", Some(SetFault::NotOfKind { at: 10_000 })),
        (524_288, b"", Some(SetFault::TooMany)),
        (524_288, b"1", Some(SetFault::TooLong)),
    ];
    for (count, more, why) in cases {
        let bytes = ones(rt.alloc(), count, more)?;
        assert_eq!(rt;
            fault(rt.alloc(), Kind::Integer, bytes.as_slice()),
            why,
            "{count}"
        );
    }
    let long = vec![in rt.alloc(); b'1'; 1_048_576]?;
    let of_one_record = Some(SetFault::NotOfKind { at: 1 });
    assert_eq!(rt;
        fault(rt.alloc(), Kind::Integer, long.as_slice()),
        of_one_record
    );
    Ok(())
}
