//! The nondeterministic automaton of a whole pattern.

ghost use Rattle.std.specs.Prelude.{ℕ, List, ◌≡◌, ◌↔◌, ◌++◌, IfOk, OnOk, All};
ghost use Rattle.helix_automata.specs.Shape.{IsCharacter};
ghost use Rattle.helix_compile.specs.Answers.{Answers};
ghost use Rattle.helix_compile.specs.Inner.Nfa.{Grows, Builds, NfaAccepts};
ghost use Rattle.helix_compile.specs.ExprRanges.{expr_ranges};
ghost use Rattle.helix_compile.specs.Inner.RangeEnds.{ReadsAmong, ReadsMore};
ghost use Rattle.helix_compile.specs.Inner.Patterns.{Before, MatchEnds, any_character, is_open, end_state};

use crate::nfa::{Nfa, State};
use crate::thompson::{build, build_star};
use helix_base::Memory;
use helix_expr::{Expr, Ranges, Regex};
use std::alloc::Global;

/// Builds any characters before a state, unless an anchor binds there.
fn build_before(alloc: Global, nfa: &mut Nfa, bound: bool, next: u32) -> Result<u32, Memory>
    ensures grows { OnOk result (Grows nfa.old nfa.new) }
    ensures leads { IfOk result (λ first. Builds nfa.old nfa.new first (Before bound) next) }
    ensures reads { OnOk result (ReadsMore nfa.old nfa.new any_character) }
{
    if bound {
        return Ok(next);
    }
    let mut ranges = Ranges::new(alloc);
    ranges.push((0x20, 0x10_FFFF))?;
    build_star(alloc, nfa, &Expr::Chars(ranges), next)
}

/// Builds a match before a state and, where it is to be contained, what may be before the match.
fn build_match(
    alloc: Global,
    nfa: &mut Nfa,
    regex: &Regex,
    containing: bool,
    next: u32,
) -> Result<u32, Memory>
    ensures grows { OnOk result (Grows nfa.old nfa.new) }
    ensures leads { IfOk result (λ first. Builds nfa.old nfa.new first (MatchEnds regex.now containing) next) }
    ensures reads { OnOk result (ReadsMore nfa.old nfa.new (any_character ++ expr_ranges regex.now.expr)) }
{
    if !containing {
        return build(alloc, nfa, &regex.expr, next);
    }
    let middle = build(alloc, nfa, &regex.expr, next)?;
    build_before(alloc, nfa, regex.at_start, middle)
}

/// The state after a match: where anything may follow, it accepts every word, so that no more is read.
fn end_of(regex: &Regex, containing: bool) -> State
    ensures { result ≡ end_state (is_open regex.now containing) }
{
    if containing && !regex.at_end {
        State::AcceptAll
    } else {
        State::Accept
    }
}

/// The nondeterministic automaton of a pattern, and the number of its first state.
pub fn nfa_of(alloc: Global, regex: &Regex, containing: bool) -> Result<(Nfa, u32), Memory>
    ensures words { IfOk result (λ built. (word : List ℕ) → All IsCharacter word → NfaAccepts built.0 built.1 word
        ↔ Answers regex.now containing word) }
    ensures reads { IfOk result (λ built. ReadsAmong built.0 (any_character ++ expr_ranges regex.now.expr)) }
{
    let mut nfa = Nfa::new(alloc);
    let end = nfa.add(end_of(regex, containing))?;
    let first = build_match(alloc, &mut nfa, regex, containing, end)?;
    Ok((nfa, first))
}
