//! A set of words.

ghost use Rattle.std.specs.Prelude.{◌≡◌, ◌+◌, ◌*◌, ◌≤◌, [], IfOk};
ghost use Rattle.helix_automata.specs.Automaton.{most_arcs};
ghost use Rattle.helix_words.specs.Words.{IsWordCell, HasRoomFor};
ghost use Rattle.helix_words.specs.Questions.{IsLeastAnswer};
ghost use Rattle.helix_words.specs.Trails.{IsAlong, IsTrailAnswer, AnyWord, IsWordAbove};
ghost use Rattle.helix_words.specs.Moves.{MovedAtMost};

use crate::blocks::table_of;
use crate::lengths::lengths_of;
use crate::rows::{Rows, rows_of};
use crate::slots::{put_from_cell, put_long};
use crate::table::Table;
use crate::trail::Trail;
use crate::trails::{deepest_branch, start_long, take_branch};
use helix_automata::Dfa;
use helix_base::{Ledger, Memory, Numbers32, Steps};
use helix_values::{Mark, Slot};
use std::alloc::Global;
use std::marker::Model;

/// The words that an automaton accepts, of allowed length. Contracts see the automaton, the least and the greatest
/// length, and the refused ones.
#[derive(Debug, Drop)]
pub struct Words {
    dfa: Dfa,
    shortest: u32,
    pub(crate) longest: u32,
    refused: Numbers32,
    pub(crate) rows: Rows,
    pub(crate) table: Table,
    pub(crate) lengths: Numbers32,
}

impl Model for Words {
    ghost use Rattle.helix_words.specs.Words.{WordSet};
    ghost use Rattle.helix_words.specs.Inner.Tables.{AreTables};

    ghost Value = { WordSet };

    ghost view = { λ words. record {
      automaton = words.dfa;
      shortest = words.shortest;
      longest = words.longest;
      refused = words.refused;
    } };

    ghost invariant = { λ words. AreTables (record {
      automaton = words.dfa;
      shortest = words.shortest;
      longest = words.longest;
      refused = words.refused;
    }) words.rows words.table words.lengths };
}

impl Words {
    /// The words from the shortest to the longest that an automaton accepts.
    pub fn open(alloc: Global, dfa: Dfa, shortest: u32, longest: u32) -> Result<Words, Memory>
        requires { longest ≤ 1000 }
        ensures { IfOk result (λ words. words ≡ record {
          automaton = dfa;
          shortest = shortest;
          longest = longest;
          refused = [];
        }) }
    {
        Words::refusing(alloc, dfa, shortest, longest, &[])
    }

    /// The same without the words of some lengths. A question passes over these at no cost.
    pub fn refusing(
        alloc: Global,
        dfa: Dfa,
        shortest: u32,
        longest: u32,
        refused: &[u32],
    ) -> Result<Words, Memory>
        requires { longest ≤ 1000 }
        ensures { IfOk result (λ words. words ≡ record {
          automaton = dfa;
          shortest = shortest;
          longest = longest;
          refused = refused.now;
        }) }
    {
        let table = table_of(alloc, &dfa, longest)?;
        let rows = rows_of(alloc, &dfa, &table)?;
        let lengths = lengths_of(alloc, &table, shortest, longest, refused)?;
        let refused = Numbers32::from_vec(Vec::from_slice(alloc, refused)?);
        Ok(Words {
            dfa,
            shortest,
            longest,
            refused,
            rows,
            table,
            lengths,
        })
    }

    /// The greatest length of a word, or 0 where there is none: the room that a trail needs.
    pub fn longest_word(&self) -> u32
        ensures room { HasRoomFor self.now result }
        ensures few { result ≤ self.now.longest }
    {
        match self.lengths.as_slice().last() {
            Some(length) => *length,
            None => 0,
        }
    }

    /// Puts the least word that a mark admits into a slot, shorter words first, or answers false where there is none.
    /// It takes no memory.
    pub fn at_or_after<L: Ledger>(
        &self,
        mark: Mark<'_>,
        out: &mut Slot,
        steps: &mut Steps<L>,
    ) -> bool
        ensures answer { IsLeastAnswer (IsWordCell self.now) mark.entry result out.old out.new }
        ensures moves { MovedAtMost L.IsNoted (1001 + 2002 * (1 + most_arcs self.now.automaton)) steps.old steps.new }
    {
        match mark {
            Mark::Start => put_long(self, 0, out, steps),
            Mark::At(bound) => put_from_cell(self, bound, false, out, steps),
            Mark::After(bound) => put_from_cell(self, bound, true, out, steps),
        }
    }

    /// Makes a trail the least word, or answers false where there is none. It takes no memory.
    pub fn first<L: Ledger>(&self, trail: &mut Trail, steps: &mut Steps<L>) -> bool
        requires { HasRoomFor self.now trail.old.room }
        ensures answer { IsTrailAnswer self.now AnyWord result trail.old trail.new }
        ensures moves { MovedAtMost L.IsNoted (1001 + 2002 * (1 + most_arcs self.now.automaton)) steps.old steps.new }
    {
        start_long(self, 0, trail, steps)
    }

    /// Makes a trail that holds a word the least word above it, or answers false where there is none. It begins where
    /// the two words differ, and takes no memory.
    pub fn next<L: Ledger>(&self, trail: &mut Trail, steps: &mut Steps<L>) -> bool
        requires room { HasRoomFor self.now trail.old.room }
        requires along { IsAlong self.now trail.old }
        ensures answer { IsTrailAnswer self.now (IsWordAbove trail.old.word) result trail.old trail.new }
        ensures moves { MovedAtMost L.IsNoted (1001 + 2002 * (1 + most_arcs self.now.automaton)) steps.old steps.new }
    {
        let _longest = self.longest;
        let count = trail.word().len() as u32;
        match deepest_branch(self, trail, steps) {
            Some(branch) => {
                take_branch(self, branch, trail, steps);
                true
            }
            None => start_long(self, count + 1, trail, steps),
        }
    }
}
