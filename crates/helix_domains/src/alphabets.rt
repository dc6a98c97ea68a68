//! The automaton of the texts over an alphabet.

ghost use Rattle.std.specs.Prelude.{ℕ, List, ◌≡◌, ◌↔◌, ◌≤◌, true, ◌&&◌, IfOk};
ghost use Rattle.std.specs.List.{All};
ghost use Rattle.helix_automata.specs.Automaton.{Accepts};
ghost use Rattle.helix_automata.specs.Shape.{IsCharacter};
ghost use Rattle.helix_base.specs.Alphabet.{is_character_of, IsCharacterOf};
ghost use Rattle.helix_domains.specs.Inner.MachineLaws.{same_flags};

use helix_automata::{Dfa, Machine, explore};
use helix_base::{Alphabet, Memory};
use std::alloc::Global;

/// A machine that reads a text, with the state whether all characters so far are of the alphabet.
#[derive(Drop)]
struct Within {
    alphabet: Alphabet,
}

/// A code up to which each character is of the alphabet where this one is.
fn alike_up_to(alphabet: Alphabet, code: u32) -> u32
    requires { IsCharacter code }
    ensures reached { code ≤ result }
    ensures alike { (other : ℕ) → IsCharacter other → code ≤ other → other ≤ result
        → is_character_of alphabet other ≡ is_character_of alphabet code }
{
    let last = match alphabet {
        Alphabet::Basic => 0x7E,
        Alphabet::Latin => 0xFF,
        Alphabet::Unicode => 0x10_FFFF,
    };
    if code <= last { last } else { u32::MAX }
}

/// Whether all characters are of the alphabet after one more.
fn still_within(alphabet: Alphabet, state: bool, code: u32) -> bool
    ensures { result ≡ (state && is_character_of alphabet code) }
{
    state && alphabet.has(code)
}

impl Machine for Within {
    type State = bool;

    type Scratch = ();

    ghost IsState = { λ within state. Unit {0} };

    ghost Words = { λ within state word. (state ≡ true) × All (IsCharacterOf within.alphabet) word };

    ghost IsEnd = { λ within state last. Unit {0} };

    fn accepts(&self, state: &bool) -> bool {
        *state
    }

    fn step(
        &self,
        _alloc: Global,
        state: &bool,
        first: u32,
        _scratch: &mut (),
    ) -> Result<(bool, u32), Memory> {
        let next = still_within(self.alphabet, *state, first);
        Ok((next, alike_up_to(self.alphabet, first)))
    }

    ghost same_words = { λ within one other equal. same_flags within.alphabet one other equal };
}

/// The automaton of the texts over an alphabet.
pub fn alphabet_dfa(alloc: Global, alphabet: Alphabet) -> Result<Dfa, Memory>
    ensures { IfOk result (λ dfa. (word : List ℕ) → All IsCharacter word → Accepts dfa word
        ↔ All (IsCharacterOf alphabet) word) }
{
    explore(alloc, &Within { alphabet }, true, &mut ())
}
