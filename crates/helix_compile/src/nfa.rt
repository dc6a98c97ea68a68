//! Nondeterministic automata.

ghost use Rattle.std.specs.Prelude.{◌≡◌, ◌<◌, [], ◌∷◌, ◌++◌, IfOk, OnOk, OnErr, length, set};

use helix_base::Memory;
use helix_expr::Ranges;
use std::alloc::Global;
use std::marker::Model;

/// A state of a nondeterministic automaton.
#[derive(Debug, Drop)]
pub enum State {
    /// The word ends here.
    Accept,
    /// Every word is accepted.
    AcceptAll,
    /// No word is accepted.
    Fail,
    /// A character of the ranges leads to another state.
    Read(Ranges, u32),
    /// Either of two states comes next, without a character.
    Split(u32, u32),
}

/// A nondeterministic automaton: its numbered states. Contracts see their list.
#[derive(Debug, Drop)]
pub struct Nfa {
    states: Vec<State>,
}

impl Model for Nfa {
    ghost use Rattle.std.specs.Prelude.{List};
    ghost use Rattle.helix_compile.specs.declared.nfa.State.{State};

    ghost Value = { List State };

    ghost view = { λ nfa. nfa.states.items };
}

impl Nfa {
    /// No state yet.
    pub fn new(alloc: Global) -> Nfa
        ensures { result ≡ [] }
    {
        Nfa {
            states: Vec::new(alloc),
        }
    }

    /// Adds a state, and answers its number.
    pub fn add(&mut self, state: State) -> Result<u32, Memory>
        ensures added { OnOk result (self.new ≡ self.old ++ state ∷ []) }
        ensures number { IfOk result (λ number. number ≡ length self.old) }
    {
        let number = u32::try_from(self.states.as_slice().len()).map_err(|_| Memory)?;
        self.states.push(state)?;
        Ok(number)
    }

    /// Puts another state in the place of one.
    pub fn replace(&mut self, number: u32, state: State)
        requires { number < length self.old }
        ensures { self.new ≡ set self.old number state }
    {
        self.states[number as usize] = state;
    }

    /// The states in order.
    pub fn as_slice(&self) -> &[State]
        ensures { result.now ≡ self.now }
    {
        self.states.as_slice()
    }
}
