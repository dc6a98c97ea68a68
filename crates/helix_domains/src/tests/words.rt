//! Texts.

use crate::tests::ask::values_of;
use crate::tests::build::{Check, Piece, Value};
use helix_base::{Alphabet, Memory};
use helix_values::Kind;
use std::alloc::Global;
use std::test::Fail;

/// Up to two letters `a` or `b`.
const UP_TO_TWO: Piece = ('a', 'b', 0, Some(2));

const EMPTY: Value<'static> = Value::Text("");

const A: Value<'static> = Value::Text("a");

const B: Value<'static> = Value::Text("b");

const BB: Value<'static> = Value::Text("bb");

/// Whether the texts of up to two letters that pass a test with a sign are these.
fn are_those(
    alloc: Global,
    check: Check<'_>,
    sign: bool,
    values: &[Value<'_>],
) -> Result<bool, Memory> {
    let pieces = [UP_TO_TWO];
    let checks = [(Check::Matching(&pieces), true), (check, sign)];
    let answer = values_of(alloc, Kind::Text(Alphabet::Unicode), &checks, values)?;
    Ok(answer == (values.len(), true))
}

#[test]
fn short_texts(rt: HostRuntime) -> Result<(), Fail> {
    let alloc = rt.alloc();
    assert!(rt; are_those(alloc, Check::OfLength(1), true, &[A, B])?);
    assert!(rt; are_those(alloc, Check::LongerThan(0), false, &[EMPTY])?);
    assert!(rt; are_those(alloc, Check::ShorterThan(2), true, &[EMPTY, A, B])?);
    assert!(rt; are_those(alloc, Check::EqualTo(A), true, &[A])?);
    Ok(())
}

/// `a|b{2}`, and what it doesn't match.
#[test]
fn texts_of_one_of_two_patterns(rt: HostRuntime) -> Result<(), Fail> {
    let either = [('a', 'a', 1, Some(1)), ('b', 'b', 2, Some(2))];
    assert!(rt; are_those(rt.alloc(), Check::MatchingOne(&either), true, &[A, BB])?);
    assert!(rt;
        are_those(
            rt.alloc(),
            Check::MatchingOne(&either),
            false,
            &[
                EMPTY,
                B,
                Value::Text("aa"),
                Value::Text("ab"),
                Value::Text("ba")
            ]
        )?
    );
    Ok(())
}

/// `.{12}` that begins with `ab`.
#[test]
fn texts_of_twelve(rt: HostRuntime) -> Result<(), Fail> {
    let twelve = [(' ', '~', 12, Some(12))];
    let ab = [('a', 'a', 1, Some(1)), ('b', 'b', 1, Some(1))];
    let checks = [
        (Check::Matching(&twelve), true),
        (Check::BeginningWith(&ab), true),
    ];
    let words = [Value::Text("ab          "), Value::Text("ab         !")];
    let kind = Kind::Text(Alphabet::Basic);
    assert_eq!(rt; values_of(rt.alloc(), kind, &checks, &words)?, (2, false));
    Ok(())
}

#[test]
fn texts_by_patterns(rt: HostRuntime) -> Result<(), Fail> {
    let alloc = rt.alloc();
    let a = [('a', 'a', 1, Some(1))];
    assert!(rt; are_those(alloc, Check::Containing(&a), false, &[EMPTY, B, BB])?);
    assert!(rt;
        are_those(
            alloc,
            Check::BeginningWith(&a),
            true,
            &[A, Value::Text("aa"), Value::Text("ab")]
        )?
    );
    Ok(())
}

#[test]
fn excluded_texts(rt: HostRuntime) -> Result<(), Fail> {
    let pieces = [UP_TO_TWO];
    let others = [Value::Text("ab"), EMPTY, BB];
    let apart = [
        (Check::Matching(&pieces), true),
        (Check::OfLength(1), false),
        (Check::InSet(&others), false),
    ];
    let words = [Value::Text("aa"), Value::Text("ba")];
    let kind = Kind::Text(Alphabet::Basic);
    assert_eq!(rt; values_of(rt.alloc(), kind, &apart, &words)?, (2, true));
    Ok(())
}

#[test]
fn alphabets(rt: HostRuntime) -> Result<(), Fail> {
    let pieces = [('~', '\u{a1}', 1, Some(1))];
    let checks = [(Check::Matching(&pieces), true)];
    let basic = [Value::Text("~")];
    let latin = [
        Value::Text("~"),
        Value::Text("\u{a0}"),
        Value::Text("\u{a1}"),
    ];
    assert_eq!(rt;
        values_of(rt.alloc(), Kind::Text(Alphabet::Basic), &checks, &basic)?,
        (1, true)
    );
    assert_eq!(rt;
        values_of(rt.alloc(), Kind::Text(Alphabet::Latin), &checks, &latin)?,
        (3, true)
    );
    Ok(())
}

/// The texts of one character that `[^ -~]` matches.
#[test]
fn characters_beyond_ascii(rt: HostRuntime) -> Result<(), Fail> {
    let alloc = rt.alloc();
    let others = [('\u{7F}', '\u{10FFFF}', 1, Some(1))];
    let checks = [(Check::Matching(&others), true)];
    let mut latin = Vec::new(alloc);
    for byte in 0xA0u8..=0xFF {
        latin.push(Value::Times(char::from(byte), 1))?;
    }
    let kind = Kind::Text(Alphabet::Latin);
    assert_eq!(rt;
        values_of(alloc, kind, &checks, latin.as_slice())?,
        (96, true)
    );
    let kind = Kind::Text(Alphabet::Basic);
    assert_eq!(rt; values_of(alloc, kind, &checks, &[])?, (0, true));
    Ok(())
}

/// Between U+D7FF and U+E000 there is no character.
#[test]
fn characters_beside_the_gap(rt: HostRuntime) -> Result<(), Fail> {
    let high = [('\u{D7FF}', '\u{10FFFF}', 1, Some(1))];
    let checks = [(Check::Matching(&high), true)];
    let kind = Kind::Text(Alphabet::Unicode);
    let words = [Value::Times('\u{D7FF}', 1), Value::Times('\u{E000}', 1)];
    assert_eq!(rt; values_of(rt.alloc(), kind, &checks, &words)?, (2, false));
    Ok(())
}

/// A thousand `a`: a matcher that goes back would try 2^1000 parts.
const LONG: Value<'static> = Value::Times('a', 1000);

/// Whether the members of a positive set that pass a test with a sign are these. A member that comes twice is one.
fn are_left(
    alloc: Global,
    check: Check<'_>,
    sign: bool,
    values: &[Value<'_>],
) -> Result<bool, Memory> {
    let members = [BB, A, EMPTY, BB, B, LONG, A];
    let checks = [(Check::InSet(&members), true), (check, sign)];
    let answer = values_of(alloc, Kind::Text(Alphabet::Unicode), &checks, values)?;
    Ok(answer == (values.len(), true))
}

#[test]
fn sets_of_texts(rt: HostRuntime) -> Result<(), Fail> {
    let alloc = rt.alloc();
    let others = [B, BB, A, Value::Text("c")];
    assert!(rt; are_left(alloc, Check::InSet(&others), true, &[A, B, BB])?);
    assert!(rt; are_left(alloc, Check::InSet(&others), false, &[EMPTY, LONG])?);
    let any = [('a', 'a', 0, None)];
    assert!(rt; are_left(alloc, Check::Matching(&any), true, &[EMPTY, A, LONG])?);
    assert!(rt; are_left(alloc, Check::Containing(&any), false, &[])?);
    assert!(rt; are_left(alloc, Check::ShorterThan(2), false, &[BB, LONG])?);
    assert!(rt; are_left(alloc, Check::EqualTo(A), false, &[EMPTY, B, BB, LONG])?);
    Ok(())
}

/// Whether the texts of `a` alone that pass a test are these.
fn are_of_a(alloc: Global, check: Check<'_>, values: &[Value<'_>]) -> Result<bool, Memory> {
    let any = [('a', 'a', 0, None)];
    let checks = [(Check::Matching(&any), true), (check, true)];
    let answer = values_of(alloc, Kind::Text(Alphabet::Basic), &checks, values)?;
    Ok(answer == (values.len(), true))
}

#[test]
fn long_texts(rt: HostRuntime) -> Result<(), Fail> {
    let alloc = rt.alloc();
    assert!(rt; are_of_a(alloc, Check::OfLength(1000), &[LONG])?);
    assert!(rt; are_of_a(alloc, Check::LongerThan(1000), &[])?);
    assert!(rt; are_of_a(alloc, Check::ShorterThan(1), &[EMPTY])?);
    Ok(())
}
