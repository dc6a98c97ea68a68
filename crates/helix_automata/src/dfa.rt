//! A deterministic automaton.

ghost use Rattle.std.specs.Prelude.{ℕ, List, ◌≡◌, ◌↔◌, ◌+◌, ◌<◌, ◌≤◌, IsTrue, IfOk, OnOk, IsErrOf, All, Any, length, slice_get, Some};
ghost use Rattle.helix_automata.specs.Automaton.{Automaton, Accepts, Leads, arcs_of, most_arcs};
ghost use Rattle.helix_automata.specs.Shape.{AreArcs, IsWellFormed, IsCharacter};

use crate::arc::{Arc, Flags, Moves};
use crate::exploration::explore;
use crate::lookup::arc_of;
use crate::product::Both;
use crate::shape::are_rows;
use helix_base::Memory;
use std::alloc::Global;
use std::marker::Model;

/// Why moves and flags make no automaton.
#[derive(Clone, Copy, Debug, PartialEq, Eq)]
pub enum DfaFault {
    /// There is no state, there are 2^32 or more, there are more or fewer flags than states, the arcs of a state aren't
    /// in order and apart, leave a character out or have one that holds none, or an arc leads to no state.
    Shape,
    /// An allocation failed.
    Memory,
}

/// A deterministic automaton over the characters of Unicode. Contracts see its moves and its accepting states.
#[derive(Debug, Drop)]
pub struct Dfa {
    moves: Moves,
    flags: Flags,
}

impl Model for Dfa {
    ghost use Rattle.helix_automata.specs.Automaton.{Automaton};
    ghost use Rattle.helix_automata.specs.Shape.{IsWellFormed};

    ghost Value = { Automaton };

    ghost view = { λ dfa. record { moves = dfa.moves; accepting = dfa.flags } };

    ghost invariant = { λ dfa. IsWellFormed (record { moves = dfa.moves; accepting = dfa.flags }) };
}

impl Dfa {
    /// The automaton with these moves and accepting states; state 0 is the start.
    pub fn build(moves: Moves, accepting: Flags) -> Result<Dfa, DfaFault>
        ensures ok { IfOk result (λ dfa. (dfa.moves ≡ moves) × (dfa.accepting ≡ accepting)) }
        ensures shape { IsErrOf result DfaFault.Shape
            ↔ (IsWellFormed (record { moves = moves; accepting = accepting }) → ⊥) }
    {
        let states = moves.as_slice().len();
        if states == 0 || states > u32::MAX as usize || accepting.as_slice().len() != states {
            return Err(DfaFault::Shape);
        }
        if !are_rows(moves.as_slice(), states) {
            return Err(DfaFault::Shape);
        }
        Ok(Dfa {
            moves,
            flags: accepting,
        })
    }

    /// The automaton with these moves and accepting states, which are well formed.
    pub(crate) fn of(moves: Moves, flags: Flags) -> Dfa
        requires { IsWellFormed (record { moves = moves; accepting = flags }) }
        ensures { result ≡ record { moves = moves; accepting = flags } }
    {
        Dfa { moves, flags }
    }

    /// How many states there are.
    pub fn states(&self) -> u32
        ensures number { result ≡ length self.now.moves }
        ensures some { 0 < result }
    {
        self.moves.as_slice().len() as u32
    }

    /// The arcs of a state, in order.
    pub fn arcs(&self, state: u32) -> &[Arc]
        requires { state < length self.now.moves }
        ensures value { result.now ≡ arcs_of self.now state }
        ensures shape { AreArcs (length self.now.moves) result.now }
    {
        self.moves.as_slice()[state as usize].as_slice()
    }

    /// The greatest number of ranges that a state has.
    pub fn range_ends(&self) -> usize
        ensures most { All (λ arcs. length arcs ≤ result) self.now.moves }
        ensures reached { Any (λ arcs. length arcs ≡ result) self.now.moves }
        ensures value { result ≡ most_arcs self.now }
    {
        let mut most = 0;
        for arcs in self.moves.as_slice() {
            most = most.max(arcs.as_slice().len());
        }
        most
    }

    /// Whether a state accepts.
    pub fn accepting(&self, state: u32) -> bool
        requires { state < length self.now.moves }
        ensures { slice_get self.now.accepting state ≡ Some result }
    {
        self.flags.as_slice()[state as usize]
    }

    /// The state to which a character leads.
    pub fn step(&self, state: u32, code: u32) -> u32
        requires state { state < length self.now.moves }
        requires character { IsCharacter code }
        ensures within { result < length self.now.moves }
        ensures leads { Leads self.now state code result }
    {
        arc_of(self.arcs(state), code).to
    }

    /// Whether the automaton accepts a word.
    pub fn accepts(&self, word: &[u32]) -> bool
        requires { All IsCharacter word.now }
        ensures { IsTrue result ↔ Accepts self.now word.now }
    {
        let _moves = &self.moves;
        let mut state = 0;
        for code in word {
            state = self.step(state, *code);
        }
        self.accepting(state)
    }

    /// The automaton that accepts the words that both accept. Its states are pairs of theirs, those that can be reached
    /// from both starts, so it has up to the product of their numbers; a state has fewer arcs than the two of its pair
    /// have together. Out of memory is answered too where there would be 2^32 - 1 states or more.
    pub fn product(&self, alloc: Global, other: &Dfa) -> Result<Dfa, Memory>
        ensures words { IfOk result (λ both. (word : List ℕ) → All IsCharacter word
            → Accepts both word ↔ (Accepts self.now word × Accepts other.now word)) }
        ensures arcs { IfOk result (λ both. All (λ arcs. length arcs < most_arcs self.now + most_arcs other.now)
            both.moves) }
    {
        let (_moves, _rows) = (&self.moves, &other.moves);
        let (_states, _others) = (self.states(), other.states());
        let both = Both {
            left: self,
            right: other,
        };
        explore(alloc, &both, (0, 0), &mut ())
    }

    /// The automaton that accepts the words over the alphabet that this one doesn't.
    pub fn complement(&self, alloc: Global) -> Result<Dfa, Memory>
        ensures { IfOk result (λ other. (word : List ℕ) → All IsCharacter word → Accepts other word
            ↔ (Accepts self.now word → ⊥)) }
    {
        let mut flags = Flags::new(alloc);
        for flag in self.flags.as_slice() {
            flags.push(!*flag)?;
        }
        let moves = self.moves.copy(alloc)?;
        Ok(Dfa { moves, flags })
    }
}
