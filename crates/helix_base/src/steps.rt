//! Counts of the steps of a walk.

ghost use Rattle.std.specs.Prelude.{◌≡◌};
ghost use Rattle.helix_base.specs.Steps.{count_of, ticked, no_steps};
ghost use Rattle.helix_base.specs.declared.steps.Unit.{Unit as Step};

use std::marker::Model;

/// What is counted.
#[derive(Clone, Copy, Debug, PartialEq, Eq, Hash)]
pub enum Unit {
    /// A question to the values of a field.
    Domain,
    /// A move of an automaton.
    Move,
}

/// Where steps are noted. The ghost relation `IsNoted before unit after` is what a ledger promises of a note: that
/// `after` is `before` with one more note of that unit.
pub trait Ledger {
    ghost IsNoted: { Self → Step → Self → Type 0 };

    /// Notes one unit.
    fn note(&mut self, unit: Unit)
        ensures { IsNoted self.old unit self.new };
}

/// A ledger that keeps nothing, and so promises nothing.
#[derive(Clone, Copy, Debug, PartialEq, Eq, Hash)]
pub struct Quiet;

impl Ledger for Quiet {
    ghost IsNoted = { λ _ _ _. Unit {0} };

    fn note(&mut self, _unit: Unit) {}
}

/// A ledger, and two counts of steps, one for each unit, that stay at 2^64 - 1 once they are there. Contracts see the
/// counts and the ledger.
#[derive(Debug, Drop)]
pub struct Steps<L: Ledger> {
    ledger: L,
    domain: u64,
    moves: u64,
}

impl<L: Ledger> Model for Steps<L> {
    ghost use Rattle.helix_base.specs.Steps.{Counted, Tally};

    ghost Value = { Tally L };

    ghost view = { λ steps. record {
      counts = record { domain = steps.domain; moves = steps.moves };
      ledger = steps.ledger;
    } };
}

impl<L: Ledger> Steps<L> {
    /// No steps yet.
    pub fn new(ledger: L) -> Steps<L>
        ensures counts { result.counts ≡ no_steps }
        ensures ledger { result.ledger ≡ ledger }
    {
        Steps {
            ledger,
            domain: 0,
            moves: 0,
        }
    }

    /// Notes a step in the ledger, once, and counts it.
    pub fn tick(&mut self, unit: Unit)
        ensures counts { self.new.counts ≡ ticked self.old.counts unit }
        ensures noted { L.IsNoted self.old.ledger unit self.new.ledger }
    {
        self.ledger.note(unit);
        match unit {
            Unit::Domain => self.domain = self.domain.saturating_add(1),
            Unit::Move => self.moves = self.moves.saturating_add(1),
        }
    }

    /// How many steps of a unit were counted.
    pub fn count(&self, unit: Unit) -> u64
        ensures { result ≡ count_of self.now.counts unit }
    {
        match unit {
            Unit::Domain => self.domain,
            Unit::Move => self.moves,
        }
    }

    /// The ledger.
    pub fn ledger(&self) -> &L
        ensures { result.now ≡ self.now.ledger }
    {
        &self.ledger
    }
}
