//! Bytes that are written as a pattern says, in which a space means any blanks.

ghost use Rattle.std.specs.Prelude.{◌≡◌, ◌↔◌, List, ℕ, [], IfSome, IsNone, IsTrue, option_map};
ghost use Rattle.std.specs.List.{list_all};
ghost use Rattle.helix_run.specs.Profile.{Follows, is_space};
ghost use Rattle.helix_run.specs.Inner.Pattern.{after, after_blanks, is_settled};

/// Whether the bytes, to their end, are written as the pattern says.
pub fn follows(bytes: &[u8], pattern: &[u8]) -> bool
    requires { IsTrue (is_settled pattern.now []) }
    ensures { IsTrue result ↔ Follows pattern.now bytes.now [] }
{
    match after(bytes, pattern) {
        Some(rest) => rest.is_empty(),
        None => false,
    }
}

/// What is after the pattern, or `None` where the bytes don't begin as it says.
pub fn after<'a>(bytes: &'a [u8], pattern: &[u8]) -> Option<&'a [u8]>
    ensures { option_map (λ rest. rest.now) result ≡ after pattern.now bytes.now }
{
    let mut rest = bytes;
    for expected in pattern {
        if *expected == b' ' {
            rest = after_blanks(rest);
        } else {
            let (first, others) = rest.split_first()?;
            if first != expected {
                return None;
            }
            rest = others;
        }
    }
    Some(rest)
}

/// The bytes from the first that isn't blank.
fn after_blanks(bytes: &[u8]) -> &[u8]
    ensures { result.now ≡ after_blanks bytes.now }
{
    let mut rest = bytes;
    while let [first, others @ ..] = rest {
        if !is_space(*first) {
            break;
        }
        rest = others;
    }
    rest
}

/// Whether a byte is a blank of JSON (RFC 8259, section 2).
fn is_space(byte: u8) -> bool
    ensures { result ≡ is_space byte }
{
    matches!(byte, b' ' | b'\t' | b'\n' | b'\r')
}
