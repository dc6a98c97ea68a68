//! The ways on at a place of a word, found in one scan of the arcs there.

ghost use Rattle.std.specs.Prelude.{◌≡◌, ◌↔◌, ℕ, ◌-◌, ◌<◌, ◌≤◌, true, length, All, IfSome, IfNone, IsTrue};
ghost use Rattle.std.specs.Bool.{OnTrue};
ghost use Rattle.helix_automata.specs.Automaton.{holds, most_arcs};
ghost use Rattle.helix_automata.specs.Shape.{IsCharacter};
ghost use Rattle.helix_words.specs.Moves.{MovedAtMost};
ghost use Rattle.helix_words.specs.Inner.Reaching.{first_of, GoesOn, AreArcsOnFrom, IsFork};
ghost use Rattle.helix_words.specs.Inner.Rests.{HasRest};

use crate::reach::{arcs_from, has_rest};
use crate::step::{Step, character_in, is_character, step_among};
use crate::words::Words;
use helix_automata::Arc;
use helix_base::{Ledger, Steps, Unit};

/// The state to which a character leads, and the least step above the character.
#[derive(Clone, Copy, Debug)]
pub struct Fork {
    pub along: Option<u32>,
    pub above: Option<Step>,
}

/// The state to which an arc that doesn't end below a code leads by it, where it is a character that the arc holds.
#[inline(always)]
fn state_along(arc: &Arc, code: u32) -> Option<u32>
    requires { code ≤ arc.now.last }
    ensures some { IfSome result (λ to. (to ≡ arc.now.to) × IsCharacter code × (holds code arc.now ≡ true)) }
    ensures none { IfNone result (IsCharacter code → ¬ (holds code arc.now ≡ true)) }
{
    if arc.first <= code && is_character(code) {
        Some(arc.to)
    } else {
        None
    }
}

/// Whether an arc holds a code and the next one, and both are printable ASCII: so it is at most places of a text.
#[inline(always)]
fn goes_on(arc: &Arc, code: u32) -> bool
    ensures { OnTrue result (GoesOn arc.now code) }
{
    arc.first <= code && code < arc.last && 0x20 <= code && code < 0x7E
}

/// The fork at a code, where the first of the arcs that reach it has been looked up.
#[inline(always)]
fn fork_after<L: Ledger>(
    words: &Words,
    arcs: &[Arc],
    fits: bool,
    code: u32,
    rest: u32,
    steps: &mut Steps<L>,
) -> Fork
    requires some { 0 < length arcs.now }
    requires within { All (λ arc. arc.to < length words.now.automaton.moves) arcs.now }
    requires rest { rest < words.now.longest }
    requires reaches { code ≤ (first_of arcs.now).last }
    requires fits { IsTrue fits ↔ HasRest words.now.automaton (first_of arcs.now).to rest }
    ensures fork { (state : ℕ) → AreArcsOnFrom words.now state code arcs.now
        → IsFork words.now.automaton state code rest result }
    ensures moves { MovedAtMost L.IsNoted (length arcs.now - 1) steps.old steps.new }
{
    if code == u32::MAX {
        return Fork {
            along: None,
            above: None,
        };
    }
    let arc = arcs[0];
    let later = &arcs[1..];
    if !fits {
        return Fork {
            along: None,
            above: step_among(words, later, code + 1, rest, steps),
        };
    }
    let along = state_along(&arc, code);
    match character_in(&arc, code + 1) {
        Some(character) => Fork {
            along,
            above: Some(Step {
                character,
                to: arc.to,
            }),
        },
        None => Fork {
            along,
            above: step_among(words, later, code + 1, rest, steps),
        },
    }
}

/// Where a character leads from a state to one with a rest of some length, and the least step above it.
#[inline(always)]
pub fn fork_at<L: Ledger>(
    words: &Words,
    state: u32,
    code: u32,
    rest: u32,
    steps: &mut Steps<L>,
) -> Fork
    requires state { state < length words.now.automaton.moves }
    requires rest { rest < words.now.longest }
    ensures fork { IsFork words.now.automaton state code rest result }
    ensures moves { MovedAtMost L.IsNoted (most_arcs words.now.automaton) steps.old steps.new }
{
    let arcs = arcs_from(words, state, code);
    if arcs.is_empty() {
        return Fork {
            along: None,
            above: None,
        };
    }
    let arc = arcs[0];
    steps.tick(Unit::Move);
    let fits = has_rest(words, arc.to, rest);
    if fits && goes_on(&arc, code) {
        return Fork {
            along: Some(arc.to),
            above: Some(Step {
                character: code + 1,
                to: arc.to,
            }),
        };
    }
    fork_after(words, arcs, fits, code, rest, steps)
}
