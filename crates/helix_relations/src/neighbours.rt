//! The neighbours of a field of a region.

ghost use Rattle.std.specs.Prelude.{◌≡◌, ◌<◌, length, IfOk};
ghost use Rattle.std.specs.List.{AllByRecursion};
ghost use Rattle.helix_values.specs.Class.{class_of_kind};
ghost use Rattle.helix_relations.specs.Inner.Kept.{goes, end_seen, seen_from, IsOfClass, IsLinkOf, AreLinkedAt, AreLinkable, joints_of};
ghost use Rattle.helix_relations.specs.Region.{relations_of};
ghost use Rattle.helix_relations.specs.RegionGraph.{are_joined};

use crate::part::PartNode;
use crate::signed::SignedRelation;
use helix_base::{List, Memory};
use helix_links::{PairLink, SidedRelation};
use helix_pairs::End;
use helix_profile::Relation;
use helix_search::{Neighbour, Neighbours};
use helix_values::Kind;
use std::alloc::Global;

/// Whether a relation goes from the one field to the other.
fn goes(relation: &Relation, from: usize, to: usize) -> bool
    ensures { result ≡ goes relation.now from to }
{
    relation.left as usize == from && relation.right as usize == to
}

/// The end that the child is, if the relation joins it with the parent.
fn end_seen(relation: &Relation, parent: usize, child: usize) -> Option<End>
    ensures { result ≡ end_seen (goes relation.now parent child) (goes relation.now child parent) }
{
    if goes(relation, parent, child) {
        return Some(End::Right);
    }
    if goes(relation, child, parent) {
        return Some(End::Left);
    }
    None
}

/// All relations between two fields.
fn seen_from(
    alloc: Global,
    relations: &[SignedRelation],
    parent: usize,
    child: usize,
) -> Result<List<SidedRelation>, Memory>
    ensures { IfOk result (λ seen. seen ≡ seen_from relations.now parent child) }
{
    let mut seen = List::new(alloc);
    for signed in relations {
        if let Some(child) = end_seen(&signed.relation, parent, child) {
            seen.push(SidedRelation {
                relation: signed.relation,
                sign: signed.sign,
                child,
            })?;
        }
    }
    Ok(seen)
}

/// The link of two fields of a kind's class.
fn link_between(
    alloc: Global,
    kind: Kind,
    relations: &[SignedRelation],
    parent: usize,
    child: usize,
) -> Result<PairLink, Memory>
    requires { AllByRecursion (IsOfClass (class_of_kind kind) parent child) relations.now }
    ensures { IfOk result (IsLinkOf relations.now (class_of_kind kind) parent child) }
{
    let seen = seen_from(alloc, relations, parent, child)?;
    PairLink::of(alloc, kind, seen.as_slice())
}

/// Whether some relation joins two fields.
fn are_joined(relations: &[SignedRelation], one: usize, other: usize) -> bool
    ensures { result ≡ are_joined (relations_of relations.now) one other }
{
    for signed in relations {
        if goes(&signed.relation, one, other) {
            return true;
        }
        if goes(&signed.relation, other, one) {
            return true;
        }
    }
    false
}

/// The neighbours of a field, anew from all relations.
pub(crate) fn neighbours_of(
    alloc: Global,
    nodes: &[PartNode],
    relations: &[SignedRelation],
    here: usize,
) -> Result<Neighbours<PairLink>, Memory>
    requires here { here < length nodes.now }
    requires classes { AreLinkable (joints_of nodes.now) relations.now }
    ensures { IfOk result (AreLinkedAt (joints_of nodes.now) relations.now here) }
{
    let own = &nodes[here];
    let (number, kind) = (own.place, own.values.kind);
    let mut neighbours = List::new(alloc);
    for (node, other) in nodes.iter().enumerate() {
        if are_joined(relations, number, other.place) {
            let down = link_between(alloc, kind, relations, number, other.place)?;
            let up = link_between(alloc, kind, relations, other.place, number)?;
            neighbours.push(Neighbour { node, down, up })?;
        }
    }
    Ok(neighbours)
}
