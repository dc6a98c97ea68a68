//! The walk along a word.

ghost use Rattle.std.specs.Prelude.{◌≡◌, ◌*◌, ◌<◌, ◌≤◌, length, MatchOption};
ghost use Rattle.helix_automata.specs.Automaton.{most_arcs};
ghost use Rattle.helix_words.specs.Moves.{MovedAtMost};
ghost use Rattle.helix_words.specs.Inner.Rests.{HasRest};
ghost use Rattle.helix_words.specs.Inner.Walks.{IsWalkAlong};

use crate::fork::fork_at;
use crate::step::{Branch, Step};
use crate::words::Words;
use helix_base::{Ledger, Steps};

/// Whether a word is accepted, and where the least greater word of its length branches off.
#[derive(Clone, Copy, Debug)]
pub struct Walk {
    pub accepted: bool,
    pub branch: Option<Branch>,
}

/// The deeper branch: the one at this place, if there is a step for it.
#[inline(always)]
fn deeper(branch: Option<Branch>, place: u32, step: Option<Step>) -> Option<Branch>
    ensures { MatchOption step (result ≡ branch) (λ step. result ≡ Some (record { place = place; step = step })) }
{
    match step {
        Some(step) => Some(Branch { place, step }),
        None => branch,
    }
}

/// Walks along a word as far as some word of its length begins so, and keeps the deepest branch.
pub fn walk_along<L: Ledger>(words: &Words, word: &[u32], steps: &mut Steps<L>) -> Walk
    requires short { words.now.longest ≤ 1000 }
    requires start { 0 < length words.now.automaton.moves }
    requires count { length word.now ≤ words.now.longest }
    requires rest { HasRest words.now.automaton 0 (length word.now) }
    ensures walk { IsWalkAlong words.now.automaton word.now result }
    ensures moves { MovedAtMost L.IsNoted (length word.now * most_arcs words.now.automaton) steps.old steps.new }
{
    let mut state = 0;
    let mut branch = None;
    for (place, code) in word.iter().enumerate() {
        let rest = (word.len() - place - 1) as u32;
        let fork = fork_at(words, state, *code, rest, steps);
        branch = deeper(branch, place as u32, fork.above);
        match fork.along {
            Some(next) => state = next,
            None => {
                return Walk {
                    accepted: false,
                    branch,
                };
            }
        }
    }
    Walk {
        accepted: true,
        branch,
    }
}
