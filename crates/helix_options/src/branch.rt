//! What is left to do on the way to a path.

ghost use Rattle.std.specs.Prelude.{◌≡◌, IfOk};

use helix_base::{List, Memory};
use helix_tree::{Literal, Tree};
use sqlite_items::Items;
use std::alloc::Global;

/// Literals that hold all at once.
pub type Path = List<Literal>;

/// A tree that has to hold, or with a false sign has to fail.
#[derive(Debug, Drop)]
pub struct Demand {
    pub tree: Tree,
    pub sign: bool,
}

/// Demands, of which the last is taken first.
pub type Demands = Items<Demand>;

impl Demand {
    /// An equal demand.
    pub fn copy(&self, alloc: Global) -> Result<Demand, Memory>
        ensures { IfOk result (λ copy. copy ≡ self.now) }
    {
        Ok(Demand {
            tree: self.tree.copy(alloc)?,
            sign: self.sign,
        })
    }
}

/// The beginning of some paths: the literals so far, and the demands that are left.
#[derive(Debug, Drop)]
pub struct Branch {
    pub literals: Path,
    pub demands: Demands,
}

impl Branch {
    /// An equal branch.
    pub fn copy(&self, alloc: Global) -> Result<Branch, Memory>
        ensures { IfOk result (λ copy. copy ≡ self.now) }
    {
        Ok(Branch {
            literals: self.literals.copy(alloc)?,
            demands: copy_demands(alloc, self.demands.as_slice())?,
        })
    }
}

fn copy_demands(alloc: Global, demands: &[Demand]) -> Result<Demands, Memory>
    ensures { IfOk result (λ copy. copy ≡ demands.now) }
{
    let mut all = Demands::new(alloc);
    for demand in demands {
        all.push(demand.copy(alloc)?)?;
    }
    Ok(all)
}
