//! The trees that relations join fields into, relation by relation.

ghost use Rattle.std.specs.Prelude.{◌≡◌, ◌∷◌, [], length, IsTrue, ◌↔◌, IfOk, OnOk, IfErr};
ghost use Rattle.std.specs.List.{All};
ghost use Rattle.helix_profile.specs.Forest.{AreJoined, IsForest};
ghost use Rattle.helix_forest.specs.Closing.{HasEndsBelow, TellsCycle};
ghost use Rattle.helix_forest.specs.Inner.Trees.{AreTreesOf, TellsOfNext};

use crate::fault::ForestFault;
use crate::labels::{own_labels, replace_label};
use helix_base::{List, Memory};
use helix_profile::Relation;
use std::alloc::Global;

/// The trees of fields that relations join: one label for the fields of each tree, and the relations
/// that joined two trees, one for each joined pair.
#[derive(Debug, Drop)]
struct Trees {
    labels: Vec<u32>,
    lines: List<Relation>,
}

/// Tells whether the pairs that relations join form no cycle. [`ForestFault::Cycle`] names the first
/// relation that closes one.
pub fn check_forest(alloc: Global, fields: u32, relations: &[Relation]) -> Result<(), ForestFault>
    requires ends { All (HasEndsBelow fields) relations.now }
    ensures ok { OnOk result (IsForest relations.now) }
    ensures cycle { IfErr result (TellsCycle relations.now) }
{
    let mut trees = Trees {
        labels: own_labels(alloc, fields)?,
        lines: List::new(alloc),
    };
    for (index, relation) in relations.iter().enumerate() {
        if !add(&mut trees, *relation)? {
            return Err(ForestFault::Cycle {
                index: index as u64,
            });
        }
    }
    Ok(())
}

/// Adds a relation, unless it closes a cycle.
fn add(trees: &mut Trees, relation: Relation) -> Result<bool, Memory>
    requires { HasEndsBelow (length trees.old.labels.items) relation }
    ensures fields { OnOk result (length trees.new.labels.items ≡ length trees.old.labels.items) }
    ensures told { IfOk result (TellsOfNext trees.old trees.new relation) }
{
    let left = trees.labels[relation.left as usize];
    let right = trees.labels[relation.right as usize];
    if left == right {
        return Ok(is_line(trees.lines.as_slice(), relation));
    }
    trees.lines.push(relation)?;
    replace_label(trees.labels.as_mut_slice(), left, right);
    Ok(true)
}

/// Whether one of the lines joins the two ends of a relation, in either direction.
fn is_line(lines: &[Relation], relation: Relation) -> bool
    ensures { IsTrue result ↔ AreJoined lines.now relation.left relation.right }
{
    for line in lines {
        if has_ends(*line, relation.left, relation.right) {
            return true;
        }
    }
    false
}

fn has_ends(line: Relation, left: u32, right: u32) -> bool
    ensures { IsTrue result ↔ AreJoined (line ∷ []) left right }
{
    (line.left == left && line.right == right) || (line.left == right && line.right == left)
}
