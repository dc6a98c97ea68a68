//! A test of a value.

ghost use Rattle.std.specs.Prelude.{◌≡◌, IfOk};

use crate::numbers::Numbers;
use helix_base::{Memory, TryCopy};
use std::alloc::Global;

/// What a value of a ladder is tested for.
#[derive(Debug, Drop)]
pub enum GridTest {
    /// It isn't below this number.
    Least(i128),
    /// It isn't above this number.
    Most(i128),
    /// It is on the grid of this level.
    On(u32),
    /// It isn't on the grid of this level.
    Off(u32),
    /// It is one of these numbers.
    OneOf(Numbers),
    /// It is none of these numbers.
    NoneOf(Numbers),
}

impl GridTest {
    /// An equal test.
    pub fn copy(&self, alloc: Global) -> Result<GridTest, Memory>
        ensures { IfOk result (λ copy. copy ≡ self.now) }
    {
        Ok(match self {
            GridTest::Least(bound) => GridTest::Least(*bound),
            GridTest::Most(bound) => GridTest::Most(*bound),
            GridTest::On(level) => GridTest::On(*level),
            GridTest::Off(level) => GridTest::Off(*level),
            GridTest::OneOf(members) => GridTest::OneOf(members.copy(alloc)?),
            GridTest::NoneOf(others) => GridTest::NoneOf(others.copy(alloc)?),
        })
    }
}

impl TryCopy for GridTest {
    fn try_copy(&self, alloc: Global) -> Result<GridTest, Memory> {
        self.copy(alloc)
    }
}

/// The same tests.
pub fn copy_tests(alloc: Global, tests: &[GridTest]) -> Result<Vec<GridTest>, Memory>
    ensures { IfOk result (λ copies. copies.items ≡ tests.now) }
{
    let mut copies = Vec::new(alloc);
    for test in tests {
        copies.push(test.copy(alloc)?)?;
    }
    Ok(copies)
}
