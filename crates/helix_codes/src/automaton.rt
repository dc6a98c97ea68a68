//! The automaton of a code.

ghost use Rattle.std.specs.Prelude.{ℕ, List, ◌↔◌, ◌≤◌, IsTrue, IfOk, All, length};
ghost use Rattle.helix_automata.specs.Automaton.{Accepts};
ghost use Rattle.helix_automata.specs.Shape.{IsCharacter};
ghost use Rattle.helix_values.specs.Codes.{IsValidCode};
ghost use Rattle.helix_codes.specs.Inner.Completed.{IsPrefixOrNone, completed_by};
ghost use Rattle.helix_codes.specs.Inner.Ends.{IsStepEnd};
ghost use Rattle.helix_codes.specs.Inner.PrefixLaws.{same_completions};

use crate::gap::gap_end;
use crate::next::{length_of, next};
use crate::prefix::Prefix;
use helix_automata::{Dfa, Machine, explore};
use helix_base::Memory;
use helix_values::Code;
use helix_values::codes::is_cusip_character;
use std::alloc::Global;

/// The machine that reads a word of a code. A state is the prefix that has been read, or `None` where no word of the
/// code begins so.
#[derive(Drop)]
struct Reader {
    code: Code,
}

impl Machine for Reader {
    type State = Option<Prefix>;

    type Scratch = ();

    ghost IsState = { λ reader state. IsPrefixOrNone reader.code state };

    ghost Words = { λ reader state word. IsTrue (completed_by reader.code state word) };

    ghost IsEnd = { λ reader state last. IsStepEnd last };

    fn accepts(&self, state: &Option<Prefix>) -> bool {
        match state {
            Some(prefix) => prefix.count == length_of(self.code) && prefix.even == 0,
            None => false,
        }
    }

    fn step(
        &self,
        _alloc: Global,
        state: &Option<Prefix>,
        first: u32,
        _scratch: &mut (),
    ) -> Result<(Option<Prefix>, u32), Memory> {
        if is_cusip_character(first) {
            Ok((next(self.code, state, first), first))
        } else {
            Ok((None, gap_end(first)))
        }
    }

    ghost same_words = { λ reader one other equal. same_completions reader.code one other equal };
}

/// The automaton of the valid words of a code. It has some 1,100 states for an ISIN and fewer than 100 for the others;
/// a state has at most 60 arcs.
pub fn code_dfa(alloc: Global, code: Code) -> Result<Dfa, Memory>
    ensures words { IfOk result (λ dfa. (word : List ℕ) → All IsCharacter word → Accepts dfa word
        ↔ IsValidCode code word) }
    ensures arcs { IfOk result (λ dfa. All (λ arcs. length arcs ≤ 60) dfa.moves) }
{
    let start = Prefix {
        count: 0,
        even: 0,
        odd: 0,
    };
    explore(alloc, &Reader { code }, Some(start), &mut ())
}
