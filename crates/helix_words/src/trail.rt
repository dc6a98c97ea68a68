//! A word with the states along it.

ghost use Rattle.std.specs.Prelude.{◌≡◌, ◌+◌, ◌<◌, ◌≤◌, [], ◌∷◌, ◌++◌, length, take, slice_index, IfOk, EachIndex};

use helix_base::Memory;
use std::alloc::Global;
use std::marker::Model;

/// A word and the states along it, in room that is made once. It belongs to who asks, so that a set of words can be
/// shared. Contracts see the word, the states and the room.
#[derive(Debug, Drop)]
pub struct Trail {
    word: Vec<u32>,
    states: Vec<u32>,
    len: usize,
}

impl Model for Trail {
    ghost use Rattle.std.specs.Prelude.{◌≡◌, ◌+◌, ◌≤◌, length, take};
    ghost use Rattle.helix_words.specs.Trails.{Along};

    ghost Value = { Along };

    ghost view = { λ t. record {
      word = take t.len t.word.items;
      states = take (t.len + 1) t.states.items;
      room = length t.word.items;
    } };

    ghost invariant = { λ t. (t.len ≤ length t.word.items) × (length t.states.items ≡ length t.word.items + 1) };
}

impl Trail {
    /// The empty word, with room for a longest one.
    pub fn open(alloc: Global, longest: u32) -> Result<Trail, Memory>
        ensures { IfOk result (λ trail. trail ≡ record { word = []; states = 0 ∷ []; room = longest }) }
    {
        Ok(Trail {
            word: zeros(alloc, longest as usize)?,
            states: zeros(alloc, longest as usize + 1)?,
            len: 0,
        })
    }

    /// The word.
    pub fn word(&self) -> &[u32]
        ensures { result.now ≡ self.now.word }
    {
        &self.word[..self.len]
    }

    /// The state before the character at a place, or after the last one.
    #[inline(always)]
    pub(crate) fn state(&self, place: usize) -> u32
        requires { place ≤ length self.now.word }
        ensures { result ≡ slice_index self.now.states place }
    {
        self.states[place]
    }

    /// Appends a character and the state to which it leads.
    #[inline(always)]
    pub(crate) fn push(&mut self, character: u32, state: u32)
        requires { length self.old.word < self.old.room }
        ensures { self.new ≡ record {
          word = self.old.word ++ character ∷ [];
          states = self.old.states ++ state ∷ [];
          room = self.old.room;
        } }
    {
        self.word[self.len] = character;
        self.len += 1;
        self.states[self.len] = state;
    }

    /// Leaves the empty word.
    #[inline(always)]
    pub(crate) fn clear(&mut self)
        ensures { self.new ≡ record { word = []; states = 0 ∷ []; room = self.old.room } }
    {
        self.len = 0;
        self.states[0] = 0;
    }

    /// Leaves the first characters.
    #[inline(always)]
    pub(crate) fn truncate(&mut self, count: usize)
        requires { count ≤ length self.old.word }
        ensures { self.new ≡ record {
          word = take count self.old.word;
          states = take (count + 1) self.old.states;
          room = self.old.room;
        } }
    {
        self.len = count;
    }
}

/// A list of zeros.
fn zeros(alloc: Global, count: usize) -> Result<Vec<u32>, Memory>
    ensures long { IfOk result (λ list. length list.items ≡ count) }
    ensures zeros { IfOk result (λ list. EachIndex list.items (λ k. slice_index list.items k ≡ 0)) }
{
    let mut list = Vec::with_capacity(alloc, count)?;
    for _ in 0..count {
        list.push(0)?;
    }
    Ok(list)
}
