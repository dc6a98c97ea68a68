//! The Thompson construction: the nondeterministic automaton of an expression, built from its end to its beginning.

ghost use Rattle.std.specs.Prelude.{ℕ, List, [], ◌∷◌, false, ◌≡◌, IsTrue, IfOk, OnOk};
ghost use Rattle.helix_expr.specs.declared.expr.Expr.{Expr};
ghost use Rattle.helix_expr.specs.Matching.{Matches, MatchInOrder, MatchSome, Joined, UpTo, Repeats};
ghost use Rattle.helix_compile.specs.declared.nfa.State.{State};
ghost use Rattle.helix_compile.specs.Inner.Nfa.{Grows, Builds};
ghost use Rattle.helix_compile.specs.Inner.Alternatives.{AreAlternatives};
ghost use Rattle.helix_compile.specs.ExprRanges.{expr_ranges};
ghost use Rattle.helix_compile.specs.Inner.RangeEnds.{AreAmong, ReadsAmong, ReadsMore, ranges_of_each};
ghost use Rattle.helix_compile.specs.Inner.Repeats.{AnyNumber, UpToNumber, RepeatsMore};

use crate::alternatives::{append_ranges, build_chars, chars_of};
use crate::empty_words::matches_only_empty;
use crate::nfa::{Nfa, State};
use helix_base::Memory;
use helix_expr::{Expr, Ranges};
use std::alloc::Global;

/// Builds an expression before a state, and answers its first state.
#[cycle(thompson)]
pub fn build(alloc: Global, nfa: &mut Nfa, expr: &Expr, next: u32) -> Result<u32, Memory>
    ensures grows { OnOk result (Grows nfa.old nfa.new) }
    ensures leads { IfOk result (λ first. Builds nfa.old nfa.new first (Matches expr.now) next) }
    ensures reads { OnOk result (ReadsMore nfa.old nfa.new (expr_ranges expr.now)) }
{
    match expr {
        Expr::Empty => Ok(next),
        Expr::Chars(ranges) => nfa.add(State::Read(ranges.copy(alloc)?, next)),
        Expr::Seq(parts) => build_in_order(alloc, nfa, parts.as_slice(), next),
        Expr::Alt(parts) => build_alternatives(alloc, nfa, parts.as_slice(), next),
        Expr::Repeat(part, least, most) => build_repeat(
            alloc,
            nfa,
            part.get(),
            (*least, *most),
            next,
        ),
    }
}

/// Builds expressions one before the other.
#[cycle(thompson)]
fn build_in_order(alloc: Global, nfa: &mut Nfa, parts: &[Expr], next: u32) -> Result<u32, Memory>
    ensures grows { OnOk result (Grows nfa.old nfa.new) }
    ensures leads { IfOk result (λ first. Builds nfa.old nfa.new first (MatchInOrder parts.now) next) }
    ensures reads { OnOk result (ReadsMore nfa.old nfa.new (ranges_of_each parts.now)) }
{
    let mut first = next;
    let mut left = parts;
    while let [rest @ .., part] = left {
        first = build(alloc, nfa, part, first)?;
        left = rest;
    }
    Ok(first)
}

/// Builds one more alternative before others: the ranges of those that are one character are gathered, so that there is
/// one state for all of them.
#[cycle(thompson)]
fn build_alternative(
    alloc: Global,
    nfa: &mut Nfa,
    chars: &mut Ranges,
    part: &Expr,
    ends: (u32, u32),
) -> Result<u32, Memory>
    ensures alternatives { IfOk result (λ first. (start : List State) (done : List Expr)
        → AreAlternatives start nfa.old ends.0 chars.old done ends.1
        → AreAlternatives start nfa.new first chars.new (part.now ∷ done) ends.1) }
    ensures reads { OnOk result ((all : List (ℕ × ℕ)) → AreAmong (expr_ranges part.now) all
        → AreAmong chars.old all × ReadsAmong nfa.old all → AreAmong chars.new all × ReadsAmong nfa.new all) }
{
    let (others, next) = ends;
    if let Some(ranges) = chars_of(part) {
        append_ranges(chars, ranges)?;
        return Ok(others);
    }
    let first = build(alloc, nfa, part, next)?;
    nfa.add(State::Split(first, others))
}

/// Builds alternatives.
#[cycle(thompson)]
fn build_alternatives(
    alloc: Global,
    nfa: &mut Nfa,
    parts: &[Expr],
    next: u32,
) -> Result<u32, Memory>
    ensures grows { OnOk result (Grows nfa.old nfa.new) }
    ensures leads { IfOk result (λ first. Builds nfa.old nfa.new first (MatchSome parts.now) next) }
    ensures reads { OnOk result (ReadsMore nfa.old nfa.new (ranges_of_each parts.now)) }
{
    let mut first = nfa.add(State::Fail)?;
    let mut chars = Ranges::new(alloc);
    let mut left = parts;
    while let [rest @ .., part] = left {
        first = build_alternative(alloc, nfa, &mut chars, part, (first, next))?;
        left = rest;
    }
    build_chars(nfa, chars, first, next)
}

/// Builds an expression as often as the limits say.
#[cycle(thompson)]
fn build_repeat(
    alloc: Global,
    nfa: &mut Nfa,
    part: &Expr,
    limits: (u32, Option<u32>),
    next: u32,
) -> Result<u32, Memory>
    ensures grows { OnOk result (Grows nfa.old nfa.new) }
    ensures leads { IfOk result
        (λ first. Builds nfa.old nfa.new first (Repeats (Matches part.now) limits.0 limits.1) next) }
    ensures reads { OnOk result (ReadsMore nfa.old nfa.new (expr_ranges part.now)) }
{
    if matches_only_empty(part) {
        return build_empty_repeat(alloc, nfa, part, limits, next);
    }
    let rest = build_more(alloc, nfa, part, limits, next)?;
    build_times(alloc, nfa, part, limits.0, rest)
}

/// Builds a repeat of what matches the empty word alone: once is as often as any number of times, however such repeats
/// are nested.
#[cycle(thompson)]
fn build_empty_repeat(
    alloc: Global,
    nfa: &mut Nfa,
    part: &Expr,
    limits: (u32, Option<u32>),
    next: u32,
) -> Result<u32, Memory>
    requires { (word : List ℕ) → Matches part.now word → word ≡ [] }
    ensures grows { OnOk result (Grows nfa.old nfa.new) }
    ensures leads { IfOk result
        (λ first. Builds nfa.old nfa.new first (Repeats (Matches part.now) limits.0 limits.1) next) }
    ensures reads { OnOk result (ReadsMore nfa.old nfa.new (expr_ranges part.now)) }
{
    if limits.0 == 0 {
        return Ok(next);
    }
    if is_below(limits.1, limits.0) {
        return nfa.add(State::Fail);
    }
    build(alloc, nfa, part, next)
}

/// Whether a greatest number is below the least one.
fn is_below(most: Option<u32>, least: u32) -> bool
    ensures below { IsTrue result → UpTo most least → ⊥ }
    ensures not_below { result ≡ false → UpTo most least }
{
    match most {
        None => false,
        Some(most) => most < least,
    }
}

/// Builds an expression as often as the limits allow after the times that they ask for.
#[cycle(thompson)]
fn build_more(
    alloc: Global,
    nfa: &mut Nfa,
    part: &Expr,
    limits: (u32, Option<u32>),
    next: u32,
) -> Result<u32, Memory>
    ensures grows { OnOk result (Grows nfa.old nfa.new) }
    ensures leads { IfOk result
        (λ first. Builds nfa.old nfa.new first (RepeatsMore (Matches part.now) limits.0 limits.1) next) }
    ensures reads { OnOk result (ReadsMore nfa.old nfa.new (expr_ranges part.now)) }
{
    match limits.1 {
        None => build_star(alloc, nfa, part, next),
        Some(most) => {
            if most < limits.0 {
                nfa.add(State::Fail)
            } else {
                build_optional(alloc, nfa, part, most - limits.0, next)
            }
        }
    }
}

/// Builds an expression any number of times.
#[cycle(thompson)]
pub fn build_star(alloc: Global, nfa: &mut Nfa, part: &Expr, next: u32) -> Result<u32, Memory>
    ensures grows { OnOk result (Grows nfa.old nfa.new) }
    ensures leads { IfOk result (λ first. Builds nfa.old nfa.new first (AnyNumber (Matches part.now)) next) }
    ensures reads { OnOk result (ReadsMore nfa.old nfa.new (expr_ranges part.now)) }
{
    let split = nfa.add(State::Fail)?;
    let first = build(alloc, nfa, part, split)?;
    nfa.replace(split, State::Split(next, first));
    Ok(split)
}

/// Builds an expression at most n times.
#[cycle(thompson)]
fn build_optional(
    alloc: Global,
    nfa: &mut Nfa,
    part: &Expr,
    most: u32,
    next: u32,
) -> Result<u32, Memory>
    ensures grows { OnOk result (Grows nfa.old nfa.new) }
    ensures leads { IfOk result (λ first. Builds nfa.old nfa.new first (UpToNumber (Matches part.now) most) next) }
    ensures reads { OnOk result (ReadsMore nfa.old nfa.new (expr_ranges part.now)) }
{
    let mut first = next;
    for _ in 0..most {
        let one = build(alloc, nfa, part, first)?;
        first = nfa.add(State::Split(one, next))?;
    }
    Ok(first)
}

/// Builds an expression n times.
#[cycle(thompson)]
fn build_times(
    alloc: Global,
    nfa: &mut Nfa,
    part: &Expr,
    count: u32,
    next: u32,
) -> Result<u32, Memory>
    ensures grows { OnOk result (Grows nfa.old nfa.new) }
    ensures leads { IfOk result (λ first. Builds nfa.old nfa.new first (Joined (Matches part.now) count) next) }
    ensures reads { OnOk result (ReadsMore nfa.old nfa.new (expr_ranges part.now)) }
{
    let mut first = next;
    for _ in 0..count {
        first = build(alloc, nfa, part, first)?;
    }
    Ok(first)
}
