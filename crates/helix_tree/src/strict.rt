//! The strict negation of a tree.

ghost use Rattle.std.specs.Prelude.{◌≡◌, ◌↔◌, List, IfOk};
ghost use Rattle.helix_tree.specs.Tree.{TreeHolds};
ghost use Rattle.helix_tree.specs.TreeOf.{strict_negation, negations_of_all};
ghost use Rattle.helix_values.specs.declared.cell.Cell.{Cell};

use crate::tree::{Tree, Trees};
use helix_base::Memory;
use std::alloc::Global;

/// The tree that holds exactly for the rows for which this one doesn't, also at nulls.
pub fn strict_not(alloc: Global, tree: &Tree) -> Result<Tree, Memory>
    ensures negation { IfOk result (λ negation. negation ≡ strict_negation tree.now) }
    ensures complement { IfOk result (λ negation. (row : List Cell) → TreeHolds negation row
        ↔ ¬ TreeHolds tree.now row) }
{
    negated(alloc, tree)
}

#[cycle(strict)]
fn negated(alloc: Global, tree: &Tree) -> Result<Tree, Memory>
    ensures { IfOk result (λ negation. negation ≡ strict_negation tree.now) }
{
    match tree {
        Tree::Lit(literal) => Ok(Tree::Lit(literal.opposite(alloc)?)),
        Tree::All(parts) => Ok(Tree::Any(all_negated(alloc, parts.as_slice())?)),
        Tree::Any(parts) => Ok(Tree::All(all_negated(alloc, parts.as_slice())?)),
    }
}

#[cycle(strict)]
fn all_negated(alloc: Global, trees: &[Tree]) -> Result<Trees, Memory>
    ensures { IfOk result (λ negations. negations ≡ negations_of_all trees.now) }
{
    let mut all = Trees::new(alloc);
    for tree in trees {
        all.push(negated(alloc, tree)?)?;
    }
    Ok(all)
}
