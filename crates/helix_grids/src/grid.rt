//! The values of a level that pass a list of tests.

ghost use Rattle.std.specs.Prelude.{◌≡◌, ◌<◌, ◌≤ℤ◌, ◌<ℤ◌, [], ◌∷◌, ◌++◌, IfOk, OnOk, OnErr};
ghost use Rattle.std.specs.List.{All};
ghost use Rattle.helix_grids.specs.Tests.{IsMember, IsLeastOf, NamesLevelBelow};

use crate::members::{Members, Sieve, first_member, next_member};
use crate::narrow::narrowed;
use crate::test::{GridTest, copy_tests};
use crate::whole::members_of;
use crate::window::whole_level;
use helix_base::Memory;
use helix_ladders::Scale;
use std::alloc::Global;
use std::marker::Model;

/// The values of one level of a ladder that pass each test that was met. Contracts see the ladder, the
/// level and the tests.
#[derive(Debug, Drop)]
pub struct Grid<S: Scale> {
    scale: S,
    level: u32,
    tests: Vec<GridTest>,
    members: Members,
}

impl<S: Scale> Model for Grid<S> {
    ghost use Rattle.helix_grids.specs.Tests.{Tested};

    ghost Value = { Tested S };

    ghost use Rattle.helix_grids.specs.Inner.Members.{AreMembersOf};

    ghost view = { λ grid. record { scale = grid.scale; level = grid.level; tests = grid.tests.items } };

    ghost invariant = { λ grid. AreMembersOf (S.ladder grid.scale) grid.level grid.tests.items grid.members };
}

impl<S: Scale> Grid<S> {
    /// All values of a level.
    pub fn open(alloc: Global, scale: S, level: u32) -> Result<Grid<S>, Memory>
        requires { level < (S.ladder scale).levels }
        ensures { IfOk result (λ grid. grid ≡ record { scale = scale; level = level; tests = [] }) }
    {
        let window = whole_level(&scale, level);
        Ok(Grid {
            scale,
            level,
            tests: Vec::new(alloc),
            members: Members::Sifted(Sieve {
                window,
                excluded: Vec::new(alloc),
                next: Vec::new(alloc),
            }),
        })
    }

    /// The values of a level that pass all these tests. Its cost is that of sorting all numbers of the
    /// tests, where meeting them one by one sorts those of the earlier ones again.
    pub fn of(alloc: Global, scale: S, level: u32, tests: &[GridTest]) -> Result<Grid<S>, Memory>
    where
        S: Drop,
        requires level { level < (S.ladder scale).levels }
        requires tests { All (NamesLevelBelow (S.ladder scale).levels) tests.now }
        ensures { IfOk result (λ grid. grid ≡ record { scale = scale; level = level; tests = tests.now }) }
    {
        let members = members_of(alloc, &scale, level, tests)?;
        let tests = copy_tests(alloc, tests)?;
        Ok(Grid {
            scale,
            level,
            tests,
            members,
        })
    }

    /// Leaves the values that pass one more test. On `Err` the grid is as it was.
    pub fn meet(&mut self, test: &GridTest) -> Result<(), Memory>
        requires { NamesLevelBelow (S.ladder self.old.scale).levels test.now }
        ensures ok { OnOk result (self.new ≡ record self.old { tests = self.old.tests ++ test.now ∷ [] }) }
        ensures err { OnErr result (self.new ≡ self.old) }
    {
        let alloc = *self.tests.allocator();
        let members = narrowed(alloc, &self.scale, &self.members, test)?;
        let met = test.copy(alloc)?;
        self.tests.push(met)?;
        self.members = members;
        Ok(())
    }

    /// The least of the values that isn't below a bound, or `None` where there is none. It takes no memory.
    pub fn at_or_after(&self, bound: i128) -> Option<i128>
        ensures { IsLeastOf (λ v. IsMember (S.ladder self.now.scale) self.now.level self.now.tests v
            × (bound ≤ℤ v)) result }
    {
        first_member(&self.scale, &self.members, bound)
    }

    /// The least of the values above one of them, or `None` where there is none. It costs less than
    /// [`at_or_after`](Grid::at_or_after), and takes no memory.
    pub fn after(&self, member: i128) -> Option<i128>
        requires { IsMember (S.ladder self.now.scale) self.now.level self.now.tests member }
        ensures { IsLeastOf (λ v. IsMember (S.ladder self.now.scale) self.now.level self.now.tests v
            × (member <ℤ v)) result }
    {
        next_member(&self.scale, &self.members, member)
    }
}
