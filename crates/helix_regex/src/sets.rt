//! Sets of characters, as ranges in any order that may overlap, and as those that are separate.

ghost use Rattle.std.specs.Prelude.{◌≡◌, ◌==◌, ℕ, ◌||◌, ◌&&◌, not, true, nat_le, nat_lt, OnOk, IfOk, IsTrue, IsOk};
ghost use Rattle.helix_base.specs.Ranges.{in_ranges};
ghost use Rattle.helix_base.specs.Alphabet.{is_in_range};
ghost use Rattle.helix_regex.specs.Characters.{is_character, is_word, set_has};
ghost use Rattle.helix_regex.specs.Meaning.{are_separate, AreRangesOf};
ghost use Rattle.helix_regex.specs.Inner.Sets.{Gains, GainsAllBut};

use helix_base::Memory;
use helix_expr::Ranges;
use std::alloc::{AllocError, Global};

/// Appends the codes from one to another.
#[tactic(auto, using(crate::proofs::RangeSets::listed_more))]
pub fn push_range(raw: &mut Vec<(u32, u32)>, first: u32, last: u32) -> Result<(), AllocError>
    ensures { OnOk result (Gains (λ c. is_in_range c (first, last)) raw.old.items raw.new.items) }
{
    raw.push((first, last))?;
    Ok(())
}

/// Appends the characters of the alphabet from one to another.
pub fn push_clipped(raw: &mut Vec<(u32, u32)>, first: u32, last: u32) -> Result<(), AllocError>
    ensures { OnOk result (Gains (λ c. is_character c && is_in_range c (first, last)) raw.old.items raw.new.items) }
{
    push_range(raw, first.max(0x20), last.min(0x7E))?;
    push_range(raw, first.max(0xA0), last.min(0xD7FF))?;
    push_range(raw, first.max(0xE000), last.min(0x10_FFFF))
}

/// Appends the characters of the alphabet from one on and before a code.
fn push_gap(raw: &mut Vec<(u32, u32)>, next: u32, end: u32) -> Result<(), AllocError>
    ensures { OnOk result (Gains (λ c. is_character c && (nat_le next c && nat_lt c end)) raw.old.items raw.new.items) }
{
    if next < end {
        push_clipped(raw, next, end - 1)?;
    }
    Ok(())
}

/// Appends the characters of the alphabet that are in none of some separate ranges.
pub fn push_gaps(raw: &mut Vec<(u32, u32)>, ranges: &[(u32, u32)]) -> Result<(), AllocError>
    requires { are_separate ranges.now ≡ true }
    ensures { OnOk result (GainsAllBut ranges.now raw.old.items raw.new.items) }
{
    let mut next: u32 = 0;
    for range in ranges {
        push_gap(raw, next, range.0)?;
        next = range.1.saturating_add(1);
    }
    push_gap(raw, next, 0x11_0000)?;
    Ok(())
}

/// Appends one character.
#[tactic(auto, using(crate::proofs::NamedSets::one_gained))]
pub fn push_one(raw: &mut Vec<(u32, u32)>, code: u32) -> Result<(), AllocError>
    ensures { OnOk result (Gains (λ c. c == code) raw.old.items raw.new.items) }
{
    push_range(raw, code, code)?;
    Ok(())
}

/// Appends letters, digits and `_`.
fn push_word(raw: &mut Vec<(u32, u32)>) -> Result<(), AllocError>
    ensures { OnOk result (Gains is_word raw.old.items raw.new.items) }
{
    push_range(raw, 'A' as u32, 'Z' as u32)?;
    push_range(raw, 'a' as u32, 'z' as u32)?;
    push_range(raw, '0' as u32, '9' as u32)?;
    push_one(raw, '_' as u32)?;
    Ok(())
}

/// Appends the set that a letter after a backslash names. A letter that names none is read as `S`.
pub fn push_set(raw: &mut Vec<(u32, u32)>, letter: u32) -> Result<(), AllocError>
    ensures { OnOk result (Gains (set_has letter) raw.old.items raw.new.items) }
{
    if letter == 'd' as u32 {
        push_range(raw, '0' as u32, '9' as u32)
    } else if letter == 'w' as u32 {
        push_word(raw)
    } else if letter == 's' as u32 {
        push_one(raw, ' ' as u32)
    } else if letter == 'D' as u32 {
        push_gaps(raw, &[('0' as u32, '9' as u32)])
    } else if letter == 'W' as u32 {
        push_gaps(
            raw,
            &[
                ('0' as u32, '9' as u32),
                ('A' as u32, 'Z' as u32),
                ('_' as u32, '_' as u32),
                ('a' as u32, 'z' as u32),
            ],
        )
    } else {
        push_gaps(raw, &[(' ' as u32, ' ' as u32)])
    }
}
