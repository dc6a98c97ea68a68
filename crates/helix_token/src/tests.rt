//! Identities. `round` has what is written and read back, `broken` what is refused.

mod broken;
mod round;

use crate::identity;
use helix_base::{Bytes, List};
use std::alloc::Global;
use std::process::Abort;
use std::test::Fail;

/// Compares an identity with the digits of its digest.
fn check(
    rt: &impl Abort,
    alloc: Global,
    texts: (&str, &str),
    files: &[&str],
    digits: &str,
) -> Result<(), Fail> {
    let mut pieces = List::new(alloc);
    for file in files {
        pieces.push(Bytes::from_vec(Vec::from_slice(alloc, file.as_bytes())?))?;
    }
    let (profile, mode) = texts;
    let found = identity(profile.as_bytes(), mode.as_bytes(), pieces.as_slice());
    assert_eq!(rt;
        hex::encode(alloc, found)?.as_str(),
        digits,
        "{profile} {mode}"
    );
    Ok(())
}

/// Profiles, modes and set files with their digests: what `sha256sum` gives for the pieces, each after its length in
/// eight bytes.
fn digests() -> [(
    (&'static str, &'static str),
    &'static [&'static str],
    &'static str,
); 7] {
    [
        (
            ("", ""),
            &[],
            "374708fff7719dd5979ec875d56cd2286f6d3cf7ec317a3b25632aab28ec37bb",
        ),
        (
            ("abc", "mode full"),
            &[],
            "8dfd12e5d33c516398d8531e38ccee60a996bcf79779f3b23482d88a207d63ca",
        ),
        (
            (
                "abcdbcdecdefdefgefghfghighijhijkijkljklmklmnlmnomnopnopq",
                "mode violate 12",
            ),
            &["", "abc"],
            "f512f22b6dc3c748ad121f7df913064afce9e3f93deadafe126ccdcabbf4857c",
        ),
        (
            ("a", "bc"),
            &[],
            "3fafa1cf2f19a7c1129beb20cf0983f73a489a221fc0dd2f16d1be292d089205",
        ),
        (
            ("ab", "c"),
            &[],
            "601d5476e2ccfe2c87a2bba7a322659734a05749d5b5aa781f513e4912db0d5f",
        ),
        (
            ("abc", "mode full"),
            &["a", "b"],
            "ff48bb166cadd20592f485f6f12f3148b9e0f04e8686512496037c4244c4a110",
        ),
        (
            ("abc", "mode full"),
            &["b", "a"],
            "7b04c5330eae1903817daaaeb5aa983c9ca17f086fdc46105621c3d439214845",
        ),
    ]
}

#[test]
fn identities_are_digests(rt: HostRuntime) -> Result<(), Fail> {
    for (texts, files, digits) in digests() {
        check(&rt, rt.alloc(), texts, files, digits)?;
    }
    Ok(())
}
