//! What of a text has been read, between two tokens.

ghost use Rattle.std.specs.Prelude.{◌≡◌, ◌↔◌, [], ◌∷◌, ◌++◌, IsTrue, OnOk};
ghost use Rattle.helix_json.specs.Inner.Progress.{IsWhole};
ghost use Rattle.helix_json.specs.declared.need.Need.TheVariants as need_is;

use crate::need::Need;
use crate::nest::Nest;
use crate::token::Token;
use helix_base::Memory;
use std::alloc::Global;

/// The tokens so far with their offsets, and what may come after them.
#[derive(Debug, Drop)]
pub struct Progress {
    pub tokens: Vec<Token>,
    pub offsets: Vec<usize>,
    pub nest: Nest,
}

/// What a token or a blank does: reading goes on at an offset, or there is a syntax error at one.
#[derive(Clone, Copy, Debug)]
pub enum Step {
    On(usize),
    SyntaxError(usize),
}

impl Progress {
    /// Nothing has been read.
    pub fn new(alloc: Global) -> Progress
        ensures tokens { result.tokens.items ≡ [] }
        ensures offsets { result.offsets.items ≡ [] }
        ensures need { result.nest.need ≡ need_is.Value }
        ensures containers { result.nest.containers.items ≡ [] }
    {
        Progress {
            tokens: Vec::new(alloc),
            offsets: Vec::new(alloc),
            nest: Nest::new(alloc),
        }
    }

    /// Appends a token that begins at that offset.
    pub fn push(&mut self, token: Token, offset: usize) -> Result<(), Memory>
        ensures tokens { OnOk result (self.new.tokens.items ≡ self.old.tokens.items ++ token ∷ []) }
        ensures offsets { OnOk result (self.new.offsets.items ≡ self.old.offsets.items ++ offset ∷ []) }
        ensures nest { OnOk result (self.new.nest ≡ self.old.nest) }
    {
        self.tokens.push(token)?;
        self.offsets.push(offset)?;
        Ok(())
    }

    /// Whether the tokens are those of a value.
    pub fn is_whole(&self) -> bool
        ensures { IsTrue result ↔ IsWhole self.now.nest }
    {
        matches!(self.nest.need, Need::After) && self.nest.containers.is_empty()
    }
}
