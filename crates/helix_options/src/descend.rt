//! The first path of a branch.

ghost use Rattle.std.specs.Prelude.{◌≡◌, ◌<◌, ◌≤◌, ◌∷◌, [], IfOk, MatchOption};
ghost use Rattle.helix_options.specs.Inner.Search.{found_by, found_by_all, FirstPath};

use crate::advance::advance;
use crate::branch::{Branch, Path};
use helix_base::Memory;
use std::alloc::Global;

/// The first path of a branch, if there is one, and the branches with its other paths.
pub struct Descent {
    pub path: Option<Path>,
    pub others: Vec<Branch>,
}

/// Goes down a branch until it has a path, or has come to an end.
pub fn descend(alloc: Global, nullable: &[bool], mut branch: Branch) -> Result<Descent, Memory>
    ensures { IfOk result (λ descent. FirstPath (found_by nullable.now branch) descent.path
        (found_by_all nullable.now descent.others.items)) }
{
    let mut others = Vec::new(alloc);
    while let Some(demand) = branch.demands.pop() {
        if !advance(alloc, nullable, &mut branch, demand, &mut others)? {
            return Ok(Descent { path: None, others });
        }
    }
    let Branch {
        literals,
        demands: _,
    } = branch;
    Ok(Descent {
        path: Some(literals),
        others,
    })
}
