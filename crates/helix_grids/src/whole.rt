//! The members of a grid of all its tests at once.

ghost use Rattle.std.specs.Prelude.{ℤ, ◌≡◌, ◌↔◌, ◌<◌, IfOk};
ghost use Rattle.std.specs.List.{All, Contains};
ghost use Rattle.helix_grids.specs.Inner.Members.{AreInForm, AreMembersOf, HasMember};
ghost use Rattle.helix_grids.specs.Inner.Parts.{IsInBounds, IsSpared, IsListed, IsBounded};
ghost use Rattle.helix_grids.specs.Inner.Sieve.{AreAscending};
ghost use Rattle.helix_grids.specs.Inner.Window.{IsInWindow, IsWindowOf};
ghost use Rattle.helix_grids.specs.Tests.{NamesLevelBelow};

use crate::keep::sifted;
use crate::members::{Members, Sieve};
use crate::narrow::among;
use crate::sieve::next_of;
use crate::test::GridTest;
use crate::window::{Window, whole_level, with_least, with_most, with_off, with_on};
use helix_base::Memory;
use helix_ladders::Scale;
use std::alloc::Global;

/// The values of a level that pass all tests. The numbers of all tests are sorted once, and each
/// excluded one is looked at once.
pub fn members_of<S: Scale>(
    alloc: Global,
    scale: &S,
    level: u32,
    tests: &[GridTest],
) -> Result<Members, Memory>
    requires level { level < (S.ladder scale.now).levels }
    requires tests { All (NamesLevelBelow (S.ladder scale.now).levels) tests.now }
    ensures { IfOk result (AreMembersOf (S.ladder scale.now) level tests.now) }
{
    let window = window_of(scale, level, tests);
    let numbers = others_of(alloc, tests)?;
    let excluded = sifted(alloc, scale, window, &[], numbers.as_slice())?;
    let next = next_of(alloc, scale, window, excluded.as_slice())?;
    let all = Members::Sifted(Sieve {
        window,
        excluded,
        next,
    });
    among_all(alloc, scale, all, tests)
}

/// The window of a level that bounds and grids leave.
fn window_of<S: Scale>(scale: &S, level: u32, tests: &[GridTest]) -> Window
    requires level { level < (S.ladder scale.now).levels }
    requires tests { All (NamesLevelBelow (S.ladder scale.now).levels) tests.now }
    ensures exact { (v : ℤ) → IsInWindow (S.ladder scale.now) result v
        ↔ IsBounded (S.ladder scale.now) level tests.now v }
    ensures kept { IsWindowOf (S.ladder scale.now) result }
{
    let mut window = whole_level(scale, level);
    for test in tests {
        window = with_test(scale, window, test);
    }
    window
}

/// The values of a window that pass a test on bounds or grids.
fn with_test<S: Scale>(scale: &S, window: Window, test: &GridTest) -> Window
    requires window { IsWindowOf (S.ladder scale.now) window }
    requires level { NamesLevelBelow (S.ladder scale.now).levels test.now }
    ensures exact { (v : ℤ) → IsInWindow (S.ladder scale.now) result v
        ↔ (IsInWindow (S.ladder scale.now) window v × IsInBounds (S.ladder scale.now) test.now v) }
    ensures kept { IsWindowOf (S.ladder scale.now) result }
{
    match test {
        GridTest::Least(bound) => with_least::<S>(window, *bound),
        GridTest::Most(bound) => with_most::<S>(window, *bound),
        GridTest::On(level) => with_on::<S>(window, *level),
        GridTest::Off(level) => with_off::<S>(window, *level),
        GridTest::OneOf(_) | GridTest::NoneOf(_) => window,
    }
}

/// The numbers that some test excludes, in ascending order.
fn others_of(alloc: Global, tests: &[GridTest]) -> Result<Vec<i128>, Memory>
    ensures ascending { IfOk result (λ all. AreAscending all.items) }
    ensures exact { IfOk result (λ all. (v : ℤ) → (¬ Contains all.items v) ↔ All (λ test. IsSpared test v) tests.now) }
{
    let mut all = Vec::new(alloc);
    for test in tests {
        all.extend_from_slice(others(test))?;
    }
    all.sort()?;
    Ok(all)
}

/// The numbers that a test excludes.
fn others(test: &GridTest) -> &[i128]
    ensures { (v : ℤ) → (¬ Contains result.now v) ↔ IsSpared test.now v }
{
    match test {
        GridTest::NoneOf(others) => others.as_slice(),
        GridTest::Least(_)
        | GridTest::Most(_)
        | GridTest::On(_)
        | GridTest::Off(_)
        | GridTest::OneOf(_) => &[],
    }
}

/// The members that each test lists that lists some.
fn among_all<S: Scale>(
    alloc: Global,
    scale: &S,
    all: Members,
    tests: &[GridTest],
) -> Result<Members, Memory>
    requires { AreInForm (S.ladder scale.now) all }
    ensures form { IfOk result (AreInForm (S.ladder scale.now)) }
    ensures exact { IfOk result (λ new. (v : ℤ)
        → HasMember (S.ladder scale.now) new v ↔ (HasMember (S.ladder scale.now) all v
        × All (λ test. IsListed test v) tests.now)) }
{
    let mut left = all;
    for test in tests {
        left = among_listed(alloc, scale, left, test)?;
    }
    Ok(left)
}

/// The members that a test lists, or all where it lists none.
fn among_listed<S: Scale>(
    alloc: Global,
    scale: &S,
    all: Members,
    test: &GridTest,
) -> Result<Members, Memory>
    requires { AreInForm (S.ladder scale.now) all }
    ensures form { IfOk result (AreInForm (S.ladder scale.now)) }
    ensures exact { IfOk result (λ new. (v : ℤ)
        → HasMember (S.ladder scale.now) new v ↔ (HasMember (S.ladder scale.now) all v × IsListed test.now v)) }
{
    match test {
        GridTest::OneOf(members) => among(alloc, scale, &all, members.as_slice()),
        GridTest::Least(_)
        | GridTest::Most(_)
        | GridTest::On(_)
        | GridTest::Off(_)
        | GridTest::NoneOf(_) => Ok(all),
    }
}
