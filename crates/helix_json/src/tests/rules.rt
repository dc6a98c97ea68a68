use crate::{JsonFault, read};
use helix_base::Memory;
use std::alloc::Global;
use std::test::Fail;

/// The same bytes, `times` times.
fn push_times(all: &mut Vec<u8>, bytes: &[u8], times: u32) -> Result<(), Memory> {
    for _ in 0..times {
        all.extend_from_slice(bytes)?;
    }
    Ok(())
}

/// Containers inside of each other between two texts.
fn nested(
    alloc: Global,
    prefix: &[u8],
    (open, close): (&[u8], &[u8]),
    depth: u32,
    suffix: &[u8],
) -> Result<Vec<u8>, Memory> {
    let mut all = Vec::new(alloc);
    all.extend_from_slice(prefix)?;
    push_times(&mut all, open, depth)?;
    push_times(&mut all, close, depth)?;
    all.extend_from_slice(suffix)?;
    Ok(all)
}

#[test]
fn at_most_64_containers_are_open(rt: HostRuntime) -> Result<(), Fail> {
    let list: (&[u8], &[u8]) = (b"[", b"]");
    let object: (&[u8], &[u8]) = (b"{\"a\":[", b"]}");
    let cases: [(&[u8], (&[u8], &[u8]), u32, &[u8], Option<JsonFault>); 10] = [
        (b"", list, 64, b"", None),
        (b"", list, 65, b"", Some(JsonFault::TooDeep { at: 64 })),
        (b"", list, 100_000, b"", Some(JsonFault::TooDeep { at: 64 })),
        (b"[", list, 64, b"]", Some(JsonFault::TooDeep { at: 64 })),
        (
            b"",
            list,
            100_000,
            b"]",
            Some(JsonFault::Grammar { at: 200_000 }),
        ),
        (b"", object, 32, b"", None),
        (b"", object, 33, b"", Some(JsonFault::TooDeep { at: 192 })),
        (b"[\"\xc3\xa9\", ", list, 63, b"]", None),
        (
            b"[\"\xc3\xa9\", ",
            list,
            64,
            b"]",
            Some(JsonFault::TooDeep { at: 70 }),
        ),
        // too deep comes before a repeated key before it
        (
            b"[{\"a\":0,\"a\":0},",
            list,
            64,
            b"]",
            Some(JsonFault::TooDeep { at: 78 }),
        ),
    ];
    for (prefix, brackets, depth, suffix, want) in cases {
        let text = nested(rt.alloc(), prefix, brackets, depth, suffix)?;
        let fault = read(rt.alloc(), text.as_slice()).err();
        assert_eq!(rt; fault, want, "{prefix:?} {depth}");
    }
    Ok(())
}

/// An object whose keys are the numbers below a count, and one more.
fn numbered(alloc: Global, count: u32, last: &str) -> Result<String, Memory> {
    let mut all = String::new(alloc);
    all.push_str("{")?;
    for i in 0..count {
        let member = format!(in alloc; "\"{i}\":0,")?;
        all.push_str(member.as_str())?;
    }
    let member = format!(in alloc; "\"{last}\":0}}")?;
    all.push_str(member.as_str())?;
    Ok(all)
}

#[test]
fn long_texts_have_their_answer(rt: HostRuntime) -> Result<(), Fail> {
    let text = numbered(rt.alloc(), 100_000, "0")?;
    let fault = read(rt.alloc(), text.as_bytes()).err();
    assert_eq!(rt; fault, Some(JsonFault::DuplicateKey { at: 988_891 }));
    let blanks = [(1_048_575, None), (1_048_576, Some(JsonFault::TooLong))];
    for (count, want) in blanks {
        let mut text = Vec::new(rt.alloc());
        text.extend_from_slice(b"1")?;
        push_times(&mut text, b" ", count)?;
        let fault = read(rt.alloc(), text.as_slice()).err();
        assert_eq!(rt; fault, want, "{count}");
    }
    Ok(())
}
