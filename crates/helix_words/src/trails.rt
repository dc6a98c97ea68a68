//! Questions whose answers go into trails.

ghost use Rattle.std.specs.Prelude.{◌*◌, ◌<◌, ◌≤◌, length, All};
ghost use Rattle.helix_automata.specs.Shape.{IsCharacter};
ghost use Rattle.helix_automata.specs.Automaton.{most_arcs};
ghost use Rattle.helix_words.specs.Words.{HasRoomFor};
ghost use Rattle.helix_words.specs.Trails.{AreAlong, IsTrailAnswer};
ghost use Rattle.helix_words.specs.Moves.{MovedAtMost};
ghost use Rattle.helix_words.specs.Inner.Walks.{IsBranchOf, IsLeastBranch};
ghost use Rattle.helix_words.specs.Inner.Fills.{IsLongFrom, TakesLeastAbove};

use crate::fill::extend;
use crate::lengths::length_from;
use crate::step::{Branch, step_above};
use crate::trail::Trail;
use crate::words::Words;
use helix_base::{Ledger, Steps};

/// Makes a trail the least of the words with at least a number of characters.
pub fn start_long<L: Ledger>(
    words: &Words,
    from: u32,
    trail: &mut Trail,
    steps: &mut Steps<L>,
) -> bool
    requires { HasRoomFor words.now trail.old.room }
    ensures answer { IsTrailAnswer words.now (IsLongFrom from) result trail.old trail.new }
    ensures moves { MovedAtMost L.IsNoted (1000 * most_arcs words.now.automaton) steps.old steps.new }
{
    match length_from(words, from) {
        Some(count) => {
            trail.clear();
            extend(words, trail, count, steps);
            true
        }
        None => false,
    }
}

/// The deepest place of a trail at which a greater word of the same length branches off.
#[inline(always)]
pub fn deepest_branch<L: Ledger>(
    words: &Words,
    trail: &Trail,
    steps: &mut Steps<L>,
) -> Option<Branch>
    requires along { AreAlong words.now.automaton trail.now.word trail.now.states }
    requires characters { All IsCharacter trail.now.word }
    requires count { length trail.now.word ≤ words.now.longest }
    ensures branch { IsBranchOf words.now.automaton trail.now.word result }
    ensures moves { MovedAtMost L.IsNoted (length trail.now.word * most_arcs words.now.automaton) steps.old steps.new }
{
    let _longest = words.longest;
    let count = trail.word().len();
    for back in 0..count {
        let place = count - back - 1;
        let code = trail.word()[place];
        if let Some(step) = step_above(words, trail.state(place), code, back as u32, steps) {
            return Some(Branch {
                place: place as u32,
                step,
            });
        }
    }
    None
}

/// Makes a trail the word to which a branch leads.
#[inline(always)]
pub fn take_branch<L: Ledger>(
    words: &Words,
    branch: Branch,
    trail: &mut Trail,
    steps: &mut Steps<L>,
)
    requires along { AreAlong words.now.automaton trail.old.word trail.old.states }
    requires short { words.now.longest ≤ 1000 }
    requires count { length trail.old.word ≤ words.now.longest }
    requires room { length trail.old.word ≤ trail.old.room }
    requires branch { IsLeastBranch words.now.automaton trail.old.word branch }
    ensures takes { TakesLeastAbove words.now.automaton trail.old trail.new }
    ensures moves { MovedAtMost L.IsNoted (length trail.old.word * most_arcs words.now.automaton) steps.old steps.new }
{
    let place = branch.place as usize;
    let rest = trail.word().len() - place - 1;
    trail.truncate(place);
    trail.push(branch.step.character, branch.step.to);
    extend(words, trail, rest as u32, steps);
}
