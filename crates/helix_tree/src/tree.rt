//! Trees of literals.

ghost use Rattle.std.specs.Prelude.{◌≡◌, IfOk};

use crate::literal::Literal;
use helix_base::{Memory, TryCopy};
use sqlite_items::Items;
use std::alloc::Global;

/// A test of a row, put together from literals: `TreeHolds` in `specs/Tree.antt` says what it means.
#[derive(Debug, Drop)]
pub enum Tree {
    Lit(Literal),
    /// Every part.
    All(Trees),
    /// Some part.
    Any(Trees),
}

/// The parts of a tree, in their order.
pub type Trees = Items<Tree>;

impl Tree {
    /// An equal tree.
    #[cycle(copy)]
    pub fn copy(&self, alloc: Global) -> Result<Tree, Memory>
        ensures { IfOk result (λ copy. copy ≡ self.now) }
    {
        match self {
            Tree::Lit(literal) => Ok(Tree::Lit(literal.copy(alloc)?)),
            Tree::All(parts) => Ok(Tree::All(copy_trees(alloc, parts.as_slice())?)),
            Tree::Any(parts) => Ok(Tree::Any(copy_trees(alloc, parts.as_slice())?)),
        }
    }
}

/// Equal trees, as a list.
#[cycle(copy)]
pub fn copy_trees(alloc: Global, trees: &[Tree]) -> Result<Trees, Memory>
    ensures { IfOk result (λ copy. copy ≡ trees.now) }
{
    let mut all = Trees::new(alloc);
    for tree in trees {
        all.push(tree.copy(alloc)?)?;
    }
    Ok(all)
}

impl TryCopy for Tree {
    fn try_copy(&self, alloc: Global) -> Result<Tree, Memory> {
        self.copy(alloc)
    }
}
