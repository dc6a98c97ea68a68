//! The mode line of a run.

ghost use Rattle.std.specs.Prelude.{◌≡◌, IfOk, Some};
ghost use Rattle.helix_loading.specs.Sources.{alphabet_words, mode_line, violation_words};

use helix_base::{Alphabet, Memory};
use itoa::Buffer;
use std::alloc::Global;

/// The mode line: which constraint is violated, and which characters texts may have.
pub fn mode_line(alloc: Global, violate: Option<u64>, alphabet: Alphabet) -> Result<Vec<u8>, Memory>
    ensures { IfOk result (λ line. line.items ≡ mode_line violate alphabet) }
{
    let mut line = violation_words(alloc, violate)?;
    line.extend_from_slice(alphabet_words(alphabet))?;
    Ok(line)
}

fn violation_words(alloc: Global, violate: Option<u64>) -> Result<Vec<u8>, Memory>
    ensures { IfOk result (λ words. words.items ≡ violation_words violate) }
{
    match violate {
        Some(number) => numbered(alloc, number),
        None => Ok(Vec::from_slice(alloc, b"mode full")?),
    }
}

fn numbered(alloc: Global, number: u64) -> Result<Vec<u8>, Memory>
    ensures { IfOk result (λ words. words.items ≡ violation_words (Some number)) }
{
    let mut words = Vec::from_slice(alloc, b"mode violate ")?;
    let mut digits = Buffer::new();
    words.extend_from_slice(digits.format(number).as_bytes())?;
    Ok(words)
}

fn alphabet_words(alphabet: Alphabet) -> &'static [u8]
    ensures { result.now ≡ alphabet_words alphabet }
{
    match alphabet {
        Alphabet::Basic => b"",
        Alphabet::Latin => b" characters latin",
        Alphabet::Unicode => b" characters unicode",
    }
}
