ghost use Rattle.std.specs.Prelude.{◌≡◌};
ghost use Rattle.helix_base.specs.Count.{raised};

use crate::{
    Alphabet, Bytes, Ledger, List, Numbers32, Quiet, RangeTable, Steps, Text, Unit, WeightTable,
    in_ranges, is_digit,
};
use std::test::Fail;

#[test]
fn texts_are_their_code_points(rt: HostRuntime) -> Result<(), Fail> {
    let cases = [
        ("", [].as_slice()),
        ("a b", [97, 32, 98].as_slice()),
        ("é€😀", [0xE9, 0x20AC, 0x1_F600].as_slice()),
        (
            "\u{0}\u{7F}\u{D7FF}\u{E000}\u{10FFFF}",
            [0, 0x7F, 0xD7FF, 0xE000, 0x10_FFFF].as_slice(),
        ),
    ];
    for (string, codes) in cases {
        let text = Text::of(rt.alloc(), string)?;
        assert_eq!(rt; text.codes(), codes, "{string}");
        assert_eq!(rt; text.copy(rt.alloc())?.codes(), codes, "{string}");
        assert_eq!(rt; text.written(rt.alloc())?.as_str(), string);
        assert_eq!(rt; Text::from_codes(rt.alloc(), text.codes())?.codes(), codes);
    }
    Ok(())
}

#[test]
fn lists_grow_and_are_copied(rt: HostRuntime) -> Result<(), Fail> {
    let mut text = Text::new(rt.alloc());
    text.push(0xE9)?;
    assert_eq!(rt; text.written(rt.alloc())?.as_str(), "é");
    let mut bytes = Bytes::new(rt.alloc());
    bytes.push(7)?;
    assert_eq!(rt; bytes.copy(rt.alloc())?.as_slice(), [7].as_slice());
    let mut numbers = Numbers32::new(rt.alloc());
    numbers.push(u32::MAX)?;
    assert_eq!(rt; numbers.copy(rt.alloc())?.as_slice(), [u32::MAX].as_slice());
    let mut texts: List<Text> = List::new(rt.alloc());
    texts.push(text)?;
    let mut lists: List<List<Text>> = List::new(rt.alloc());
    lists.push(texts.copy(rt.alloc())?)?;
    assert_eq!(rt; lists.copy(rt.alloc())?.as_slice().len(), 1);
    Ok(())
}

#[test]
fn tables_are_in_order_or_refused(rt: HostRuntime) -> Result<(), Fail> {
    let refused = [
        [(2, 1), (3, 4)],
        [(1, 2), (4, 3)],
        [(1, 3), (3, 4)],
        [(3, 4), (1, 2)],
    ];
    for ranges in refused {
        assert!(rt; RangeTable::new(ranges).is_none(), "{ranges:?}");
    }
    assert!(rt; RangeTable::new([]).is_some());
    assert!(rt; in_ranges(&[(9, 9), (1, 3)], 3) && !in_ranges(&[(9, 9), (1, 3)], 8));
    let table = RangeTable::new([(3, 3), (4, 6), (9, u32::MAX)]).ok_or("in order")?;
    let cases = [
        (0, false, 3),
        (3, true, 3),
        (4, true, 4),
        (6, true, 6),
        (7, false, 9),
        (9, true, 9),
        (u32::MAX, true, u32::MAX),
    ];
    for (code, has, next) in cases {
        assert_eq!(rt; table.has(code), has, "{code}");
        assert_eq!(rt; table.next_at_or_after(code), Some(next), "{code}");
    }
    let low = RangeTable::new([(3, 5)]).ok_or("in order")?;
    assert_eq!(rt; low.next_at_or_after(6), None);
    Ok(())
}

#[test]
fn alphabets_have_their_characters(rt: HostRuntime) {
    let cases = [
        (Alphabet::Basic, 0x1F, Some(0x20)),
        (Alphabet::Basic, 0x7E, Some(0x7E)),
        (Alphabet::Basic, 0x7F, None),
        (Alphabet::Latin, 0x7F, Some(0xA0)),
        (Alphabet::Latin, 0x100, None),
        (Alphabet::Unicode, 0x9F, Some(0xA0)),
        (Alphabet::Unicode, 0xD800, Some(0xE000)),
        (Alphabet::Unicode, 0x10_FFFF, Some(0x10_FFFF)),
        (Alphabet::Unicode, 0x11_0000, None),
    ];
    for (alphabet, code, next) in cases {
        assert_eq!(rt;
            alphabet.next_at_or_after(code),
            next,
            "{alphabet:?} {code}"
        );
        assert_eq!(rt;
            alphabet.has(code),
            next == Some(code),
            "{alphabet:?} {code}"
        );
    }
}

/// A ledger that counts what is noted.
#[derive(Debug, Drop)]
struct Counting {
    noted: u64,
}

impl Ledger for Counting {
    ghost IsNoted = { λ before _ after. after.noted ≡ raised before.noted };

    fn note(&mut self, _unit: Unit) {
        self.noted = self.noted.saturating_add(1);
    }
}

#[test]
fn sums_digits_and_steps_are_counted(rt: HostRuntime) {
    // The weights of a SEDOL, and the values of 0263494.
    let table = WeightTable::new([1, 3, 1, 7, 3, 9, 1]);
    assert_eq!(rt; table.sum(&[0, 2, 6, 3, 4, 9, 4]), 130);
    let digits = [('/', false), ('0', true), ('9', true), (':', false)];
    for (character, is) in digits {
        assert_eq!(rt; is_digit(character as u32), is, "{character}");
    }
    let mut steps = Steps::new(Counting { noted: 0 });
    steps.tick(Unit::Move);
    steps.tick(Unit::Move);
    steps.tick(Unit::Domain);
    assert_eq!(rt;
        (
            steps.count(Unit::Domain),
            steps.count(Unit::Move),
            steps.ledger().noted
        ),
        (1, 2, 3)
    );
    let mut unnoted = Steps::new(Quiet);
    unnoted.tick(Unit::Domain);
    assert_eq!(rt; unnoted.count(Unit::Domain), 1);
}
