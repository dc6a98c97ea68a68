//! The characters that no code has.

ghost use Rattle.std.specs.Prelude.{◌≡◌, ◌≤◌, ℕ, false};
ghost use Rattle.helix_values.specs.Codes.{is_cusip_character};
ghost use Rattle.helix_codes.specs.Inner.Ends.{IsStepEnd};

/// The last of the codes from this one on of which none is a character of a CUSIP, and so of no other code.
pub fn gap_end(code: u32) -> u32
    requires { is_cusip_character code ≡ false }
    ensures reached { code ≤ result }
    ensures end { IsStepEnd result }
    ensures none { (other : ℕ) → code ≤ other → other ≤ result → is_cusip_character other ≡ false }
{
    if code < '#' as u32 {
        '#' as u32 - 1
    } else if code < '*' as u32 {
        '*' as u32 - 1
    } else if code < '0' as u32 {
        '0' as u32 - 1
    } else if code < '@' as u32 {
        '@' as u32 - 1
    } else {
        u32::MAX
    }
}
