//! The parts of an automaton.

use helix_base::List;

/// The codes from `first` to `last`, both included, lead to the state `to`.
#[derive(Clone, Copy, Debug, PartialEq, Eq)]
pub struct Arc {
    pub first: u32,
    pub last: u32,
    pub to: u32,
}

/// The arcs of a state.
pub type Arcs = List<Arc>;

/// The arcs of each state.
pub type Moves = List<Arcs>;

/// Whether each state accepts.
pub type Flags = List<bool>;
