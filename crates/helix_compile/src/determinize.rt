//! The subset construction: the machine whose states are sets of states of a nondeterministic automaton.

ghost use Rattle.std.specs.Prelude.{◌≡◌, ◌↔◌, ◌++◌, ◌+◌, ◌*◌, ◌≤◌, ℕ, List, length, All, Any, IsTrue, IfOk, OnOk, slice_get};
ghost use Rattle.helix_automata.specs.Automaton.{Accepts};
ghost use Rattle.helix_automata.specs.Shape.{IsCharacter};
ghost use Rattle.helix_compile.specs.Inner.Nfa.{NfaAccepts};
ghost use Rattle.helix_compile.specs.Inner.Patterns.{any_character};
ghost use Rattle.helix_compile.specs.Inner.RangeEnds.{IsNfaEnd, ReadsAmong};
ghost use Rattle.helix_compile.specs.Inner.Subsets.{SomeAccepts, HasNoSplit, AcceptsEmpty};
ghost use Rattle.helix_compile.specs.Inner.SubsetLaws.{same_sets};

use crate::closure::epsilon_closure;
use crate::nfa::State;
use crate::seen::Seen;
use crate::state_at::accepts_empty_at;
use crate::step::{alike_up_to, step};
use helix_automata::{Dfa, Machine, explore};
use helix_base::Memory;
use std::alloc::Global;

/// A nondeterministic automaton, read as the machine of its sets of states.
#[derive(Drop)]
struct Subsets<'a> {
    nfa: &'a [State],
}

/// Whether some state of a set accepts the empty word.
fn accepts_empty(nfa: &[State], set: &[u32]) -> bool
    ensures { IsTrue result ↔ Any (λ number. AcceptsEmpty (slice_get nfa.now number)) set.now }
{
    set.iter().any(|number| accepts_empty_at(nfa, *number))
}

impl<'a> Machine for Subsets<'a> {
    type State = Vec<u32>;

    type Scratch = Seen;

    ghost IsState = { λ subsets set. HasNoSplit subsets.nfa.now set.items };

    ghost Words = { λ subsets set word. SomeAccepts subsets.nfa.now set.items word };

    ghost IsEnd = { λ subsets set last. IsNfaEnd subsets.nfa.now last };

    fn accepts(&self, set: &Vec<u32>) -> bool {
        accepts_empty(self.nfa, set.as_slice())
    }

    fn step(
        &self,
        alloc: Global,
        set: &Vec<u32>,
        first: u32,
        seen: &mut Seen,
    ) -> Result<(Vec<u32>, u32), Memory> {
        let mut next = Vec::new(alloc);
        step(self.nfa, set.as_slice(), first, seen, &mut next)?;
        Ok((next, alike_up_to(self.nfa, set.as_slice(), first)))
    }

    ghost same_words = { λ subsets one other equal. same_sets subsets.nfa.now one.items other.items equal };
}

/// The set of states that one state leads to without a character.
fn start_set(alloc: Global, nfa: &[State], start: u32, seen: &mut Seen) -> Result<Vec<u32>, Memory>
    ensures same { IfOk result (λ set. (word : List ℕ) → SomeAccepts nfa.now set.items word
        ↔ NfaAccepts nfa.now start word) }
    ensures no_split { IfOk result (λ set. HasNoSplit nfa.now set.items) }
{
    let mut set = Vec::new(alloc);
    seen.clear();
    seen.note(start)?;
    epsilon_closure(nfa, seen, &mut set)?;
    Ok(set)
}

/// The deterministic automaton that accepts what a nondeterministic one accepts from a state. Its states are the sets
/// of states that can be reached together: up to 2^n for n states, though for most patterns about as many as there are
/// states. Out of memory is answered too where there would be 2^32 - 1 or more.
pub fn determinize(alloc: Global, nfa: &[State], start: u32) -> Result<Dfa, Memory>
    ensures words { IfOk result (λ dfa. (word : List ℕ) → All IsCharacter word → Accepts dfa word
        ↔ NfaAccepts nfa.now start word) }
    ensures arcs { IfOk result (λ dfa. (ranges : List (ℕ × ℕ)) → ReadsAmong nfa.now (any_character ++ ranges)
        → All (λ arcs. length arcs ≤ 2 * length ranges + 1) dfa.moves) }
{
    let mut seen = Seen::new(alloc);
    let set = start_set(alloc, nfa, start, &mut seen)?;
    explore(alloc, &Subsets { nfa }, set, &mut seen)
}
