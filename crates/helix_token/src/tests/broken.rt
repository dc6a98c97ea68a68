//! Tokens of one nullable boolean that are refused, each for its first fault.

use super::round::one_field;
use crate::{TokenFault, read_token};
use helix_profile::Field;
use helix_values::{CellRef, Kind};
use std::alloc::Global;
use std::process::Abort;
use std::test::Fail;

/// The digits of the identity that is wanted, and of another.
const WANTED: [u8; 32] = [0xab; 32];

const OTHER: [u8; 32] = [
    0xab, 0xab, 0xab, 0xab, 0xab, 0xab, 0xab, 0xab, 0xab, 0xab, 0xab, 0xab, 0xab, 0xab, 0xab, 0xab,
    0xab, 0xab, 0xab, 0xab, 0xab, 0xab, 0xab, 0xab, 0xab, 0xab, 0xab, 0xab, 0xab, 0xab, 0xab, 0xac,
];

/// A token up to its strings.
fn head() -> &'static str {
    "{\"format\":\"helix-token-1\",\"identity\":\
     \"abababababababababababababababababababababababababababababababab\",\"row\":"
}

/// What a token gives: the cell of its row, or a fault of one kind.
#[derive(Clone, Copy)]
enum Wanted {
    Cell(CellRef<'static>),
    Form,
    OtherProfile,
    Faulty(u64),
}

/// Whether bytes are read so.
fn gives(alloc: Global, bytes: &[u8], fields: &[Field], wanted: Wanted) -> bool {
    match (read_token(alloc, bytes, &WANTED, fields), wanted) {
        (Ok(row), Wanted::Cell(cell)) => match row.as_slice() {
            [only] => only.view() == cell,
            _ => false,
        },
        (Err(TokenFault::Form), Wanted::Form) => true,
        (Err(TokenFault::OtherProfile { found, wanted }), Wanted::OtherProfile) => {
            found == OTHER && wanted == WANTED
        }
        (Err(TokenFault::Cell { index }), Wanted::Faulty(least)) => index == least,
        _ => false,
    }
}

/// What comes after the head, and what it gives.
fn strings() -> [(&'static str, Wanted); 27] {
    [
        ("[\"=true\"]}", Wanted::Cell(CellRef::Bool(true))),
        ("[\"=false\"]}\n", Wanted::Cell(CellRef::Bool(false))),
        ("[\"n\"]}", Wanted::Cell(CellRef::Null)),
        ("[\"=yes\"]}", Wanted::Faulty(0)),
        ("[\"=True\"]}", Wanted::Faulty(0)),
        ("[\"=n\"]}", Wanted::Faulty(0)),
        ("[\"=\"]}", Wanted::Faulty(0)),
        ("[]}", Wanted::Faulty(0)),
        ("[\"=true\",\"n\"]}", Wanted::Faulty(1)),
        ("[\"=no\",\"n\"]}", Wanted::Faulty(0)),
        ("[\"=true\"]}\n\n", Wanted::Form),
        ("[\"=true\"]}\r\n", Wanted::Form),
        ("[\"=true\" ]}", Wanted::Form),
        (" [\"=true\"]}", Wanted::Form),
        ("[\"=true\"] }", Wanted::Form),
        ("[\"=true\"]} ", Wanted::Form),
        ("[\"=tru\\u0065\"]}", Wanted::Form),
        ("[\"true\"]}", Wanted::Form),
        ("[\"nn\"]}", Wanted::Form),
        ("[\"\"]}", Wanted::Form),
        ("[\"=true\",]}", Wanted::Form),
        ("[\"=true\"],\"more\":0}", Wanted::Form),
        ("[true]}", Wanted::Form),
        ("[[\"=true\"]]}", Wanted::Form),
        ("{\"=true\":\"n\"}}", Wanted::Form),
        ("\"=true\"}", Wanted::Form),
        ("1e999999999}", Wanted::Form),
    ]
}

#[test]
fn strings_have_cells_or_faults(rt: HostRuntime) -> Result<(), Fail> {
    let fields = one_field(rt.alloc(), Kind::Boolean)?;
    for (rest, wanted) in strings() {
        let text = format!(in rt.alloc(); "{}{rest}", head())?;
        assert!(rt;
            gives(rt.alloc(), text.as_bytes(), fields.as_slice(), wanted),
            "{rest}"
        );
    }
    Ok(())
}

/// Tokens that are not this run's, or none.
fn others() -> [(&'static str, Wanted); 5] {
    [
        (
            "{\"format\":\"helix-token-1\",\"identity\":\
            \"abababababababababababababababababababababababababababababababac\",\"row\":[\"=yes\"]}",
            Wanted::OtherProfile,
        ),
        (
            "{\"format\":\"helix-token-1\",\"identity\":\
            \"Abababababababababababababababababababababababababababababababab\",\"row\":[\"=true\"]}",
            Wanted::Form,
        ),
        (
            "{\"format\":\"helix-token-1\",\"identity\":\
            \"ababababababababababababababababababababababababababababababab\",\"row\":[\"=true\"]}",
            Wanted::Form,
        ),
        (
            "{\"format\":\"helix-token-2\",\"identity\":\
            \"abababababababababababababababababababababababababababababababab\",\"row\":[\"=true\"]}",
            Wanted::Form,
        ),
        (
            "{\"identity\":\"abababababababababababababababababababababababababababababababab\",\
            \"format\":\"helix-token-1\",\"row\":[\"=true\"]}",
            Wanted::Form,
        ),
    ]
}

#[test]
fn tokens_are_told_from_others(rt: HostRuntime) -> Result<(), Fail> {
    let fields = one_field(rt.alloc(), Kind::Boolean)?;
    for (text, wanted) in others() {
        assert!(rt;
            gives(rt.alloc(), text.as_bytes(), fields.as_slice(), wanted),
            "{text}"
        );
    }
    let whole = format!(in rt.alloc(); "{}[\"=true\"]}}", head())?;
    for len in 0..whole.len() {
        let cut = whole.as_bytes().get(..len).ok_or("cut")?;
        assert!(rt;
            gives(rt.alloc(), cut, fields.as_slice(), Wanted::Form),
            "{len}"
        );
    }
    Ok(())
}

/// The beginning of a token, one byte over and over, and the end.
fn repeated(
    alloc: Global,
    begin: &str,
    byte: u8,
    count: usize,
    end: &str,
) -> Result<Vec<u8>, Fail> {
    let mut bytes = Vec::from_slice(alloc, head().as_bytes())?;
    bytes.extend_from_slice(begin.as_bytes())?;
    bytes.extend_from_slice(vec![in alloc; byte; count]?.as_slice())?;
    bytes.extend_from_slice(end.as_bytes())?;
    Ok(bytes)
}

// 110 bytes are before the strings, 116 around the characters of one string.
#[test]
fn long_texts_have_the_same_answers(rt: HostRuntime) -> Result<(), Fail> {
    let fields = one_field(rt.alloc(), Kind::Boolean)?;
    let cases = [
        ("", b'[', 1_000_000, "", Wanted::Form),
        ("", b'1', 1_000_000, "", Wanted::Form),
        ("[\"", b'\\', 1_000_000, "", Wanted::Form),
        ("[\"=", b'\\', 1_000_000, "\"]}", Wanted::Faulty(0)),
        ("[\"=", b'a', 100_000, "\"]}", Wanted::Faulty(0)),
        ("[\"=", b'a', 1_048_460, "\"]}", Wanted::Faulty(0)),
        ("[\"=", b'a', 1_048_460, "\"]}\n", Wanted::Form),
        ("[\"=", b'a', 1_048_461, "\"]}", Wanted::Form),
    ];
    for (begin, byte, count, end, wanted) in cases {
        let bytes = repeated(rt.alloc(), begin, byte, count, end)?;
        assert!(rt;
            gives(rt.alloc(), bytes.as_slice(), fields.as_slice(), wanted),
            "{count} {end}"
        );
    }
    Ok(())
}
