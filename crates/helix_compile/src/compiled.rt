//! The automaton of a pattern.

ghost use Rattle.std.specs.Prelude.{ℕ, List, ◌↔◌, ◌+◌, ◌*◌, ◌≤◌, IfOk, All, length};
ghost use Rattle.helix_automata.specs.Automaton.{Accepts};
ghost use Rattle.helix_automata.specs.Shape.{IsCharacter};
ghost use Rattle.helix_compile.specs.Answers.{Answers};
ghost use Rattle.helix_compile.specs.ExprRanges.{expr_ranges};

use crate::determinize::determinize;
use crate::whole::nfa_of;
use helix_automata::Dfa;
use helix_base::Memory;
use helix_expr::Regex;
use std::alloc::Global;

/// The automaton of the words that a pattern matches or, where `containing` is true, of those that contain a match with
/// the pattern's anchors.
///
/// With n positions in the pattern, repeats written out, the answer has up to 2^n states: one for each set of positions
/// that some word leads to, which for most patterns are about n, for `(a|b)*a(a|b){14}` 2^15. Where a match is to be
/// contained and no anchor ends it, every match leads to one accepting state that all characters lead back to. A state
/// has at most twice as many arcs as the pattern has ranges, those of a repeated part counted once, and one more.
pub fn dfa_of(alloc: Global, regex: &Regex, containing: bool) -> Result<Dfa, Memory>
    ensures words { IfOk result (λ dfa. (word : List ℕ) → All IsCharacter word → Accepts dfa word
        ↔ Answers regex.now containing word) }
    ensures arcs { IfOk result
        (λ dfa. All (λ arcs. length arcs ≤ 2 * length (expr_ranges regex.now.expr) + 1) dfa.moves) }
{
    let (nfa, first) = nfa_of(alloc, regex, containing)?;
    determinize(alloc, nfa.as_slice(), first)
}
