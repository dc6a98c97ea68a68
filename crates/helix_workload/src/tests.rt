use crate::workload_text;
use std::alloc::Global;
use std::test::Fail;

/// The length of a text, and whether two pieces of it are where they are said to be.
fn shape(
    alloc: Global,
    number: u64,
    first: &[u8],
    last: &[u8],
) -> Result<(usize, bool, bool), Fail> {
    let text = workload_text(alloc, number)?;
    let bytes = text.as_slice();
    Ok((
        bytes.len(),
        bytes[300..].starts_with(first),
        bytes.ends_with(last),
    ))
}

#[test]
fn known_workloads(rt: HostRuntime) -> Result<(), Fail> {
    let first =
        b"[{\"field\":\"id\",\"matchingRegex\":\"[A-H]{3}[0-9]{2}\"},{\"field\":\"day\",\"afterOrAt\":\"2024-01-19\"}";
    let end = b",\"greaterThanOrEqualTo\":565}}]}";
    for number in [1, 2_147_483_649] {
        assert_eq!(rt;
            shape(rt.alloc(), number, first, end)?,
            (11_337, true, true),
            "{number}"
        );
    }
    Ok(())
}
