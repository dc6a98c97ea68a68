//! The automaton of a machine, whose states are numbered as they are met.

ghost use Rattle.std.specs.Prelude.{ℕ, List, [], ◌≡◌, ◌↔◌, ◌<◌, ◌≤◌, true, Some, IsTrue, IfOk, OnOk, All, length, slice_get};
ghost use Rattle.helix_automata.specs.Automaton.{Accepts};
ghost use Rattle.helix_automata.specs.Shape.{IsCharacter};
ghost use Rattle.helix_automata.specs.Machine.{LeadsOn, EndsAtMost};
ghost use Rattle.helix_automata.specs.Inner.Explore.{AreStates, KeepTheirNumbers, AreStateArcs, AreFew};

use crate::arc::{Arc, Arcs, Flags, Moves};
use crate::dfa::Dfa;
use crate::numbered::Numbered;
use crate::row::Row;
use helix_base::Memory;
use std::alloc::Global;
use std::hash::Hash;

/// A deterministic machine over the characters of Unicode, with states of any type. `Words machine state word` is that
/// the machine accepts the word from the state, `IsEnd machine state code` that a step from it may end at the code.
pub trait Machine {
    type State: Eq + Hash + Drop;
    /// Memory that one step leaves to the next.
    type Scratch;

    ghost IsState: { Self → Self.State → Type 0 };

    ghost Words: { Self → Self.State → List ℕ → Type 0 };

    ghost IsEnd: { Self → Self.State → ℕ → Type 0 };

    /// Whether a state accepts the empty word.
    fn accepts(&self, state: &Self::State) -> bool
        requires { IsState self.now state.now }
        ensures { IsTrue result ↔ Words self.now state.now [] };

    /// The state to which a character leads, and the last code up to which all characters lead there.
    fn step(
        &self,
        alloc: Global,
        state: &Self::State,
        first: u32,
        scratch: &mut Self::Scratch,
    ) -> Result<(Self::State, u32), Memory>
        requires state { IsState self.now state.now }
        requires character { IsCharacter first }
        ensures leads { IfOk result
            (λ next. LeadsOn (IsState self.now) (Words self.now) state.now first next.1 next.0) }
        ensures ends { IfOk result (λ next. IsEnd self.now state.now next.1) };

    ghost same_words: { (machine : Self) (one other : Self.State) → Self.State.PartialEq.eq one other ≡ true
        → (word : List ℕ) → Words machine one word ↔ Words machine other word };
}

/// The arcs of the state with a number, by the numbers of the states to which they lead.
fn arcs_of_state<M: Machine>(
    alloc: Global,
    machine: &M,
    number: u32,
    states: &mut Numbered<M::State>,
    scratch: &mut M::Scratch,
) -> Result<Arcs, Memory>
    requires number { number < length states.old }
    requires states { AreStates (M.IsState machine.now) states.old }
    ensures keeps { OnOk result (KeepTheirNumbers states.old states.new) }
    ensures states { OnOk result (AreStates (M.IsState machine.now) states.new) }
    ensures arcs { IfOk result (AreStateArcs (M.Words machine.now) states.old number states.new) }
    ensures few { IfOk result (AreFew (M.IsEnd machine.now) states.old number) }
{
    let mut row = Row::new(alloc);
    while let Some(first) = row.next() {
        let Some(state) = states.get(number) else {
            unreachable!()
        };
        let (next, last) = machine.step(alloc, state, first, scratch)?;
        let to = states.number(next)?;
        row.lead(Arc { first, last, to })?;
    }
    Ok(row.into_arcs())
}

/// The automaton that accepts what a machine accepts from a state. It has the states that can be reached from there, as
/// the type of states tells them apart. Out of memory is answered too where these are 2^32 - 1 or more.
pub fn explore<M: Machine>(
    alloc: Global,
    machine: &M,
    start: M::State,
    scratch: &mut M::Scratch,
) -> Result<Dfa, Memory>
    requires { M.IsState machine.now start }
    ensures words { IfOk result (λ dfa. (word : List ℕ) → All IsCharacter word → Accepts dfa word
        ↔ M.Words machine.now start word) }
    ensures arcs { IfOk result (λ dfa. (most : ℕ) → EndsAtMost (M.IsState machine.now) (M.IsEnd machine.now) most
        → All (λ arcs. length arcs ≤ most) dfa.moves) }
{
    let mut states = Numbered::new(alloc);
    states.number(start)?;
    let mut moves = Moves::new(alloc);
    let mut flags = Flags::new(alloc);
    for done in 0..u32::MAX {
        let Some(state) = states.get(done) else {
            return Ok(Dfa::of(moves, flags));
        };
        flags.push(machine.accepts(state))?;
        moves.push(arcs_of_state(alloc, machine, done, &mut states, scratch)?)?;
    }
    Err(Memory)
}
