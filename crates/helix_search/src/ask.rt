//! What a fixed neighbour says of a candidate.

ghost use Rattle.helix_search.specs.Bounds.{IsValue};
ghost use Rattle.helix_search.specs.Nodes.{Stands};
ghost use Rattle.helix_search.specs.Inner.Kept.{IsVerdict};
ghost use Rattle.helix_values.specs.View.{cell_of};

use crate::kept::{Verdict, admits, keep};
use crate::link::{Exclusion, Link};
use helix_values::{CellRef, Slot};

/// What a parent's fixed value says of a candidate of the child.
pub fn ask_fixed<K: Link>(
    link: &K,
    parent: CellRef<'_>,
    candidate: CellRef<'_>,
    bound: &mut Slot,
) -> Verdict
    requires parent { IsValue (K.class link.now) (cell_of parent) }
    requires candidate { IsValue (K.class link.now) (cell_of candidate) }
    ensures { IsVerdict (K.class link.now) (λ v. Stands K.Lower K.Upper K.Allowed link.now (cell_of parent.entry) v)
        (cell_of candidate.entry) result bound.new }
{
    let Some(mark) = link.lower(parent) else {
        return Verdict::Fails;
    };
    if !admits(mark, candidate) {
        return Verdict::Raise(keep(mark, bound));
    }
    if !link.passes_upper(parent, candidate) {
        return Verdict::Fails;
    }
    match link.excludes(parent, candidate) {
        Exclusion::No => Verdict::Stands,
        Exclusion::Until(mark) => Verdict::Raise(keep(mark, bound)),
        Exclusion::Rest => Verdict::Fails,
    }
}
