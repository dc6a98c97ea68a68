//! The paths of a part.

ghost use Rattle.std.specs.Prelude.{◌≡◌, ◌≤◌, ◌-◌, ◌∷◌, ◌++◌, [], length, take, List, IfOk, OnOk, OnErr, MatchOption, MatchResult};
ghost use Rattle.helix_options.specs.Inner.Search.{paths_left};
ghost use Rattle.helix_options.specs.Parts.{IsPartOf};
ghost use Rattle.helix_options.specs.Paths.{IsExactFor, IsFewFor, AreValidFor};

use crate::branch::{Branch, Demands, Path};
use crate::descend::{Descent, descend};
use crate::open::{demands_of, nullable_fields};
use helix_base::{List, Memory};
use helix_partition::Partition;
use helix_profile::Profile;
use std::alloc::Global;
use std::marker::Model;

/// The paths that remain. Contracts see the list of them, each as the list of its literals.
#[derive(Debug, Drop)]
pub struct Paths {
    nullable: List<bool>,
    branches: Vec<Branch>,
}

impl Model for Paths {
    ghost use Rattle.std.specs.Prelude.{List};
    ghost use Rattle.helix_tree.specs.declared.literal.Literal.{Literal};
    ghost use Rattle.helix_options.specs.Inner.Search.{paths_left};
    ghost use Rattle.std.specs.Coded.{coded_list};
    ghost use Rattle.helix_tree.specs.contracts.literal.Literal as literal;

    ghost Value = { List (List Literal) };

    ghost coded = { coded_list (coded_list literal.the_row.coded) };

    ghost view = { λ paths. paths_left paths.nullable paths.branches.items };
}

impl Paths {
    /// The paths of a part of a profile.
    pub fn open(alloc: Global, profile: &Profile, part: &Partition) -> Result<Paths, Memory>
        requires { IsPartOf profile.now part.now }
        ensures exact { IfOk result (IsExactFor profile.now part.now) }
        ensures few { IfOk result (IsFewFor profile.now part.now) }
        ensures fields { IfOk result (AreValidFor profile.now part.now) }
    {
        let nullable = nullable_fields(alloc, profile.fields())?;
        let demands = demands_of(alloc, profile.constraints(), part.constraints.as_slice())?;
        Paths::starting(alloc, nullable, demands)
    }

    /// The paths that satisfy demands, where these fields may be null.
    pub(crate) fn starting(
        alloc: Global,
        nullable: List<bool>,
        demands: Demands,
    ) -> Result<Paths, Memory>
        ensures { IfOk result (λ paths. paths
            ≡ paths_left nullable (record { literals = []; demands = demands } ∷ [])) }
    {
        let literals = Path::new(alloc);
        let mut branches = Vec::new(alloc);
        branches.push(Branch { literals, demands })?;
        Ok(Paths { nullable, branches })
    }

    /// The first of the paths that remain. On `Err`, memory ran out, and they are as they were.
    pub fn next(&mut self) -> Result<Option<Path>, Memory>
        ensures { MatchResult result
            (λ found. MatchOption found ((self.old ≡ []) × (self.new ≡ [])) (λ path. self.old ≡ path ∷ self.new))
            (λ _. self.new ≡ self.old) }
    {
        let alloc = *self.branches.allocator();
        while !self.branches.is_empty() {
            let last = self.branches.len() - 1;
            let branch = self.branches[last].copy(alloc)?;
            let Descent { path, others } = descend(alloc, self.nullable.as_slice(), branch)?;
            replace_last(&mut self.branches, others)?;
            match path {
                None => {}
                Some(path) => return Ok(Some(path)),
            }
        }
        Ok(None)
    }
}

/// Puts branches in the place of the last one. On `Err`, memory ran out, and they are as they were.
fn replace_last(branches: &mut Vec<Branch>, mut others: Vec<Branch>) -> Result<(), Memory>
    requires { 1 ≤ length branches.old.items }
    ensures ok { OnOk result (branches.new.items
        ≡ take (length branches.old.items - 1) branches.old.items ++ others.items) }
    ensures err { OnErr result (branches.new.items ≡ branches.old.items) }
{
    let last = branches.len() - 1;
    branches.append(&mut others)?;
    branches.remove(last);
    Ok(())
}
