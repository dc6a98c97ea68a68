//! The least rest of a state, added to a text or a trail.

ghost use Rattle.std.specs.Prelude.{◌≡◌, ◌+◌, ◌*◌, ◌<◌, ◌≤◌, length, slice_index};
ghost use Rattle.helix_automata.specs.Automaton.{most_arcs};
ghost use Rattle.helix_words.specs.Moves.{MovedAtMost};
ghost use Rattle.helix_words.specs.Trails.{AreAlong};
ghost use Rattle.helix_words.specs.Inner.Rests.{HasRest, IsLeastStep};
ghost use Rattle.helix_words.specs.Inner.Fills.{HasRoomForMore, AddsLeast, Extends};

use crate::step::{Step, step_from};
use crate::trail::Trail;
use crate::words::Words;
use helix_base::{Ledger, Steps};
use helix_values::Slot;

/// The least character that leads from a state to one with a rest of some length, where there is one.
#[inline(always)]
fn first_step<L: Ledger>(words: &Words, state: u32, rest: u32, steps: &mut Steps<L>) -> Step
    requires state { state < length words.now.automaton.moves }
    requires rest { rest < words.now.longest }
    requires has_rest { HasRest words.now.automaton state (rest + 1) }
    ensures step { IsLeastStep words.now.automaton state 0 rest result }
    ensures within { result.to < length words.now.automaton.moves }
    ensures moves { MovedAtMost L.IsNoted (most_arcs words.now.automaton) steps.old steps.new }
{
    match step_from(words, state, 0, rest, steps) {
        Some(step) => step,
        None => unreachable!(),
    }
}

/// Adds the least rest of a state to the text in a slot.
pub fn fill<L: Ledger>(words: &Words, state: u32, count: u32, out: &mut Slot, steps: &mut Steps<L>)
    requires state { state < length words.now.automaton.moves }
    requires count { count ≤ words.now.longest }
    requires rest { HasRest words.now.automaton state count }
    requires room { HasRoomForMore count out.old }
    ensures adds { AddsLeast words.now.automaton state count out.old out.new }
    ensures moves { MovedAtMost L.IsNoted (count * most_arcs words.now.automaton) steps.old steps.new }
{
    let mut state = state;
    for done in 0..count {
        let step = first_step(words, state, count - done - 1, steps);
        out.push(step.character);
        state = step.to;
    }
}

/// Adds the least rest of a trail's last state to the trail.
pub fn extend<L: Ledger>(words: &Words, trail: &mut Trail, count: u32, steps: &mut Steps<L>)
    requires along { AreAlong words.now.automaton trail.old.word trail.old.states }
    requires state { slice_index trail.old.states (length trail.old.word) < length words.now.automaton.moves }
    requires count { count ≤ words.now.longest }
    requires rest { HasRest words.now.automaton (slice_index trail.old.states (length trail.old.word)) count }
    requires room { length trail.old.word + count ≤ trail.old.room }
    ensures extends { Extends words.now.automaton count trail.old trail.new }
    ensures moves { MovedAtMost L.IsNoted (count * most_arcs words.now.automaton) steps.old steps.new }
{
    let mut state = trail.state(trail.word().len());
    for done in 0..count {
        let step = first_step(words, state, count - done - 1, steps);
        trail.push(step.character, step.to);
        state = step.to;
    }
}
