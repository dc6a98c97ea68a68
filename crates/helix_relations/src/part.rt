//! A field of a region.

ghost use Rattle.std.specs.Prelude.{◌≡◌, ◌≤◌, ◌+◌};
ghost use Rattle.helix_search.specs.Counting.{CountsGrow};
ghost use Rattle.helix_values.specs.Counts.{IsMarkOf};
ghost use Rattle.helix_words.specs.Questions.{IsLeastAnswer};
ghost use Rattle.helix_relations.specs.Inner.Values.{class_of_part, IsPartValue};

use helix_base::{Ledger, Steps, Unit};
use helix_domains::Domain;
use helix_links::PairLink;
use helix_search::{Choices, Node};
use helix_values::{Kind, Mark, Slot};

/// A field of a region with its values.
#[derive(Debug, Drop)]
pub(crate) struct Part {
    pub kind: Kind,
    pub nullable: bool,
    pub no_null: bool,
    pub only_null: bool,
    pub domain: Domain,
}

/// A field with its neighbours, at its number.
pub(crate) type PartNode = Node<Part, PairLink>;

impl Part {
    /// Puts the least value that a mark admits into a slot, by at most one question to the domain. Where there is none,
    /// it answers false, and the slot is as it was.
    pub(crate) fn ask<L: Ledger>(
        &self,
        mark: Mark<'_>,
        out: &mut Slot,
        steps: &mut Steps<L>,
    ) -> bool
        requires { IsMarkOf (class_of_part self.now) mark }
        ensures answer { IsLeastAnswer (IsPartValue self.now) mark.entry result out.old out.new }
        ensures counts { CountsGrow steps.old steps.new }
        ensures few { steps.new.counts.domain ≤ steps.old.counts.domain + 1 }
    {
        // Both are numbers of 64 bits, so that a step lowers neither.
        let _counts = (steps.count(Unit::Domain), steps.count(Unit::Move));
        !self.only_null && self.domain.at_or_after(mark, out, steps)
    }
}

impl Choices for Part {
    ghost use Rattle.helix_relations.specs.Inner.Values.{class_of_part, IsPartValue, of_class};

    ghost class = { class_of_part };

    ghost Has = { IsPartValue };

    fn at_or_after<L: Ledger>(&self, mark: Mark<'_>, out: &mut Slot, steps: &mut Steps<L>) -> bool {
        self.ask(mark, out, steps)
    }

    ghost within = { λ part v is. of_class part v is };
}
