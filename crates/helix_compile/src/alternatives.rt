//! Alternatives that are one character, which one state reads together.

ghost use Rattle.std.specs.Prelude.{ℕ, List, ◌++◌, ◌≡◌, IfSome, IfOk, OnOk};
ghost use Rattle.helix_expr.specs.declared.expr.Expr.{Expr, Chars};
ghost use Rattle.helix_expr.specs.Matching.{MatchSome};
ghost use Rattle.helix_compile.specs.declared.nfa.State.{State};
ghost use Rattle.helix_compile.specs.Inner.Alternatives.{AreAlternatives};
ghost use Rattle.helix_compile.specs.Inner.Nfa.{Grows, Builds};
ghost use Rattle.helix_compile.specs.Inner.RangeEnds.{ReadsMore};

use crate::nfa::{Nfa, State};
use helix_base::Memory;
use helix_expr::{Expr, Ranges};

/// The ranges of an expression that is one character of them.
pub fn chars_of(expr: &Expr) -> Option<&[(u32, u32)]>
    ensures { IfSome result (λ ranges. expr.now ≡ Chars ranges.now) }
{
    match expr {
        Expr::Chars(ranges) => Some(ranges.as_slice()),
        _ => None,
    }
}

/// Appends ranges to others.
pub fn append_ranges(ranges: &mut Ranges, more: &[(u32, u32)]) -> Result<(), Memory>
    ensures { OnOk result (ranges.new ≡ ranges.old ++ more.now) }
{
    for range in more {
        ranges.push(*range)?;
    }
    Ok(())
}

/// Builds the alternatives that are one character before the others.
pub fn build_chars(nfa: &mut Nfa, chars: Ranges, others: u32, next: u32) -> Result<u32, Memory>
    ensures grows { OnOk result (Grows nfa.old nfa.new) }
    ensures leads { IfOk result (λ first. (start : List State) (done : List Expr)
        → AreAlternatives start nfa.old others chars done next
        → Builds start nfa.new first (MatchSome done) next) }
    ensures reads { OnOk result (ReadsMore nfa.old nfa.new chars) }
{
    if chars.as_slice().is_empty() {
        return Ok(others);
    }
    let first = nfa.add(State::Read(chars, next))?;
    nfa.add(State::Split(first, others))
}
