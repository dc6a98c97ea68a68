//! The product of two automata, as a machine.

ghost use Rattle.std.specs.Prelude.{◌<◌, ◌⊎◌, length};
ghost use Rattle.helix_automata.specs.Automaton.{AcceptsFrom, arcs_of};
ghost use Rattle.helix_automata.specs.Inner.ArcEnds.{IsArcEnd};
ghost use Rattle.helix_automata.specs.Inner.PairLaws.{same_pairs};

use crate::dfa::Dfa;
use crate::exploration::Machine;
use crate::lookup::arc_of;
use helix_base::Memory;
use std::alloc::Global;

/// Two automata that read a word side by side. A state is a pair of theirs.
#[derive(Drop)]
pub struct Both<'a> {
    pub left: &'a Dfa,
    pub right: &'a Dfa,
}

impl<'a> Machine for Both<'a> {
    type State = (u32, u32);

    type Scratch = ();

    ghost IsState = { λ both pair. (pair.0 < length both.left.now.moves) × (pair.1 < length both.right.now.moves) };

    ghost Words = { λ both pair word. AcceptsFrom both.left.now pair.0 word × AcceptsFrom both.right.now pair.1 word };

    ghost IsEnd = { λ both pair last. IsArcEnd (arcs_of both.left.now pair.0) last
        ⊎ IsArcEnd (arcs_of both.right.now pair.1) last };

    fn accepts(&self, pair: &(u32, u32)) -> bool {
        self.left.accepting(pair.0) && self.right.accepting(pair.1)
    }

    fn step(
        &self,
        _alloc: Global,
        pair: &(u32, u32),
        first: u32,
        _scratch: &mut (),
    ) -> Result<((u32, u32), u32), Memory> {
        let left = arc_of(self.left.arcs(pair.0), first);
        let right = arc_of(self.right.arcs(pair.1), first);
        Ok(((left.to, right.to), left.last.min(right.last)))
    }

    ghost same_words = { λ both one other equal. same_pairs both.left.now both.right.now one other equal };
}
