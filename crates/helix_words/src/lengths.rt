//! The lengths of words.

ghost use Rattle.std.specs.Prelude.{◌<◌, ◌≤◌, ◌/◌, ◌↔◌, length, IfOk, IfSome, IfNone, All, IsTrue};
ghost use Rattle.std.specs.List.{Contains};
ghost use Rattle.std.specs.List.Sorted.{IsStrictlyIncreasing};
ghost use Rattle.helix_words.specs.Inner.Lengths.{IsAllowed, AreLengths, IsLeastOf};
ghost use Rattle.helix_words.specs.Inner.Tables.{IsLengthOf, IsLengthFrom, HasNoLengthFrom};

use crate::table::Table;
use crate::words::Words;
use helix_base::{Memory, Numbers32};
use std::alloc::Global;

/// Whether a length is refused.
fn is_refused(refused: &[u32], count: u32) -> bool
    ensures { IsTrue result ↔ Contains refused.now count }
{
    refused.contains(&count)
}

/// The lengths from the shortest to the longest that aren't refused and that some word has.
pub fn lengths_of(
    alloc: Global,
    table: &Table,
    shortest: u32,
    longest: u32,
    refused: &[u32],
) -> Result<Numbers32, Memory>
    requires longest { longest ≤ 1000 }
    requires blocks { table.now.stable / 64 < length table.now.blocks }
    requires start { All (λ block. 0 < length block) table.now.blocks }
    ensures { IfOk result (AreLengths (IsAllowed table.now shortest longest refused.now)) }
{
    let mut lengths = Numbers32::new(alloc);
    for count in shortest..longest + 1 {
        if table.has_rest(0, count) && !is_refused(refused, count) {
            lengths.push(count)?;
        }
    }
    Ok(lengths)
}

/// The least of some numbers that isn't below another.
fn number_from(numbers: &[u32], from: u32) -> Option<u32>
    requires { IsStrictlyIncreasing numbers.now }
    ensures { IsLeastOf numbers.now from result }
{
    match numbers.binary_search(&from) {
        Ok(_) => Some(from),
        Err(index) => numbers.get(index).copied(),
    }
}

/// The least length from a number on that some word of the set has.
#[inline(always)]
pub fn length_from(words: &Words, from: u32) -> Option<u32>
    ensures some { IfSome result (IsLengthFrom words.now from) }
    ensures none { IfNone result (HasNoLengthFrom words.now from) }
{
    number_from(words.lengths.as_slice(), from)
}

/// Whether some word of the set has a number of characters.
#[inline(always)]
pub fn has_length(words: &Words, count: u32) -> bool
    ensures { IsTrue result ↔ IsLengthOf words.now count }
{
    match length_from(words, count) {
        Some(least) => least == count,
        None => false,
    }
}
