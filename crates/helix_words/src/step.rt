//! The steps of a word.

ghost use Rattle.std.specs.Prelude.{◌≡◌, ◌+◌, ◌<◌, ◌≤◌, ◌↔◌, ℕ, true, length, All, IfSome, IfNone, IsTrue};
ghost use Rattle.helix_automata.specs.Shape.{IsCharacter};
ghost use Rattle.helix_base.specs.Alphabet.{ranges_of};
ghost use Rattle.helix_base.specs.declared.alphabet.Alphabet.TheVariants as alphabets;
ghost use Rattle.helix_base.specs.Ranges.{IsLeastFrom, EndsBelow};
ghost use Rattle.helix_automata.specs.Automaton.{holds, most_arcs};
ghost use Rattle.helix_words.specs.Moves.{MovedAtMost};
ghost use Rattle.helix_words.specs.Inner.Reaching.{AreArcsTo, IsLeastIn};
ghost use Rattle.helix_words.specs.Inner.Rests.{IsStepFrom};

use crate::reach::{arcs_from, has_rest};
use crate::words::Words;
use helix_automata::Arc;
use helix_base::{Alphabet, Ledger, Steps, Unit};

/// A character, and the state to which it leads.
#[derive(Clone, Copy, Debug, PartialEq, Eq)]
pub struct Step {
    pub character: u32,
    pub to: u32,
}

/// A step that is taken at a place of a word, in the place of its character there.
#[derive(Clone, Copy, Debug, PartialEq, Eq)]
pub struct Branch {
    pub place: u32,
    pub step: Step,
}

/// The least character that isn't below a code. Most texts are printable ASCII, which needs no look at the alphabet.
#[inline(always)]
fn character_from(code: u32) -> Option<u32>
    ensures some { IfSome result (IsLeastFrom (ranges_of alphabets.Unicode) code) }
    ensures none { IfNone result (EndsBelow (ranges_of alphabets.Unicode) code) }
{
    if 0x20 <= code && code <= 0x7E {
        return Some(code);
    }
    Alphabet::Unicode.next_at_or_after(code)
}

/// Whether a code is a character.
#[inline(always)]
pub fn is_character(code: u32) -> bool
    ensures { IsTrue result ↔ IsCharacter code }
{
    match character_from(code) {
        Some(character) => character == code,
        None => false,
    }
}

/// The least character from a code on that an arc holds.
#[inline(always)]
pub fn character_in(arc: &Arc, from: u32) -> Option<u32>
    ensures some { IfSome result (IsLeastIn arc.now from) }
    ensures none { IfNone result ((character : ℕ) → IsCharacter character → from ≤ character
        → ¬ (holds character arc.now ≡ true)) }
{
    let character = character_from(arc.first.max(from))?;
    if character <= arc.last {
        Some(character)
    } else {
        None
    }
}

/// The least step along arcs, by a character from a code on, to a state with a rest of some length.
#[inline(always)]
pub fn step_among<L: Ledger>(
    words: &Words,
    arcs: &[Arc],
    from: u32,
    rest: u32,
    steps: &mut Steps<L>,
) -> Option<Step>
    requires within { All (λ arc. arc.to < length words.now.automaton.moves) arcs.now }
    requires rest { rest ≤ words.now.longest }
    ensures step { (state : ℕ) → AreArcsTo words.now.automaton state from rest arcs.now
        → IsStepFrom words.now.automaton state from rest result }
    ensures moves { MovedAtMost L.IsNoted (length arcs.now) steps.old steps.new }
{
    for arc in arcs {
        steps.tick(Unit::Move);
        if has_rest(words, arc.to, rest) {
            if let Some(character) = character_in(arc, from) {
                return Some(Step {
                    character,
                    to: arc.to,
                });
            }
        }
    }
    None
}

/// The least character from a code on that leads from a state to one with a rest of some length.
#[inline(always)]
pub fn step_from<L: Ledger>(
    words: &Words,
    state: u32,
    from: u32,
    rest: u32,
    steps: &mut Steps<L>,
) -> Option<Step>
    requires state { state < length words.now.automaton.moves }
    requires rest { rest < words.now.longest }
    ensures step { IsStepFrom words.now.automaton state from rest result }
    ensures moves { MovedAtMost L.IsNoted (most_arcs words.now.automaton) steps.old steps.new }
{
    step_among(words, arcs_from(words, state, from), from, rest, steps)
}

/// The least character above a code that leads from a state to one with a rest of some length.
#[inline(always)]
pub fn step_above<L: Ledger>(
    words: &Words,
    state: u32,
    code: u32,
    rest: u32,
    steps: &mut Steps<L>,
) -> Option<Step>
    requires state { state < length words.now.automaton.moves }
    requires rest { rest < words.now.longest }
    ensures step { IsStepFrom words.now.automaton state (code + 1) rest result }
    ensures moves { MovedAtMost L.IsNoted (most_arcs words.now.automaton) steps.old steps.new }
{
    if code == u32::MAX {
        return None;
    }
    step_from(words, state, code + 1, rest, steps)
}
