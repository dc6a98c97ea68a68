//! The alphabets that texts are written in.

ghost use Rattle.std.specs.Prelude.{◌≡◌, true, IfSome, IfNone};
ghost use Rattle.helix_base.specs.Alphabet.{is_character_of, ranges_of};
ghost use Rattle.helix_base.specs.Ranges.{are_in_order, IsLeastFrom, EndsBelow};

use crate::ranges::{in_ranges, next_at_or_after};

/// The characters that a text may have: printable ASCII, printable Latin-1, or every Unicode
/// scalar value but the control characters. `specs/Alphabet.antt` lists their ranges.
#[derive(Clone, Copy, Debug, PartialEq, Eq)]
pub enum Alphabet {
    /// U+0020 to U+007E.
    Basic,
    /// `Basic`, and U+00A0 to U+00FF.
    Latin,
    /// `Basic`, and U+00A0 to U+D7FF and U+E000 to U+10FFFF.
    Unicode,
}

impl Alphabet {
    /// Whether a code is a character of the alphabet.
    pub fn has(self, code: u32) -> bool
        ensures { result ≡ is_character_of self code }
    {
        in_ranges(self.ranges(), code)
    }

    /// The least character of the alphabet that isn't below this code, or `None` where there is none.
    pub fn next_at_or_after(self, code: u32) -> Option<u32>
        ensures some { IfSome result (IsLeastFrom (ranges_of self) code) }
        ensures none { IfNone result (EndsBelow (ranges_of self) code) }
    {
        next_at_or_after(self.ranges(), code)
    }

    /// The ranges of the alphabet, in order.
    fn ranges(self) -> &'static [(u32, u32)]
        ensures value { result.now ≡ ranges_of self }
        ensures in_order { are_in_order result.now ≡ true }
    {
        match self {
            Alphabet::Basic => &[(0x20, 0x7E)],
            Alphabet::Latin => &[(0x20, 0x7E), (0xA0, 0xFF)],
            Alphabet::Unicode => &[(0x20, 0x7E), (0xA0, 0xD7FF), (0xE000, 0x10_FFFF)],
        }
    }
}
