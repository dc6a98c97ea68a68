//! The members that pass one more test.

ghost use Rattle.std.specs.Prelude.{ℤ, ◌≡◌, ◌↔◌, IfOk};
ghost use Rattle.std.specs.List.{Contains};
ghost use Rattle.helix_grids.specs.Inner.Members.{AreInForm, HasMember, window_of};
ghost use Rattle.helix_grids.specs.Tests.{Passes, NamesLevelBelow};
ghost use Rattle.helix_grids.specs.Inner.Window.{IsInWindow, IsWindowOf};

use crate::keep::{common, sifted, sorted};
use crate::members::{Members, Shortlist, Sieve, window};
use crate::sieve::next_of;
use crate::test::GridTest;
use crate::window::{Window, with_least, with_most, with_off, with_on};
use helix_base::Memory;
use helix_ladders::Scale;
use std::alloc::Global;

/// The members that pass a test.
pub fn narrowed<S: Scale>(
    alloc: Global,
    scale: &S,
    all: &Members,
    test: &GridTest,
) -> Result<Members, Memory>
    requires form { AreInForm (S.ladder scale.now) all.now }
    requires level { NamesLevelBelow (S.ladder scale.now).levels test.now }
    ensures form { IfOk result (AreInForm (S.ladder scale.now)) }
    ensures exact { IfOk result (λ new. (v : ℤ)
        → HasMember (S.ladder scale.now) new v ↔ (HasMember (S.ladder scale.now) all.now v
        × Passes (S.ladder scale.now) test.now v)) }
{
    let window = window(all);
    match test {
        GridTest::Least(bound) => within(alloc, scale, all, with_least::<S>(window, *bound)),
        GridTest::Most(bound) => within(alloc, scale, all, with_most::<S>(window, *bound)),
        GridTest::On(level) => within(alloc, scale, all, with_on::<S>(window, *level)),
        GridTest::Off(level) => within(alloc, scale, all, with_off::<S>(window, *level)),
        GridTest::OneOf(members) => among(alloc, scale, all, members.as_slice()),
        GridTest::NoneOf(others) => apart(alloc, scale, all, others.as_slice()),
    }
}

/// The members that lie in a narrower window.
fn within<S: Scale>(
    alloc: Global,
    scale: &S,
    all: &Members,
    window: Window,
) -> Result<Members, Memory>
    requires form { AreInForm (S.ladder scale.now) all.now }
    requires window { IsWindowOf (S.ladder scale.now) window }
    requires narrower { (v : ℤ) → IsInWindow (S.ladder scale.now) window v
        → IsInWindow (S.ladder scale.now) (window_of all.now) v }
    ensures form { IfOk result (AreInForm (S.ladder scale.now)) }
    ensures exact { IfOk result (λ new. (v : ℤ)
        → HasMember (S.ladder scale.now) new v ↔ (HasMember (S.ladder scale.now) all.now v
        × IsInWindow (S.ladder scale.now) window v)) }
{
    match all {
        Members::Listed(list) => {
            let members = sifted(alloc, scale, window, &[], list.members.as_slice())?;
            Ok(Members::Listed(Shortlist { window, members }))
        }
        Members::Sifted(sieve) => {
            let excluded = sifted(alloc, scale, window, &[], sieve.excluded.as_slice())?;
            let next = next_of(alloc, scale, window, excluded.as_slice())?;
            Ok(Members::Sifted(Sieve {
                window,
                excluded,
                next,
            }))
        }
    }
}

/// The members that are among the numbers.
pub fn among<S: Scale>(
    alloc: Global,
    scale: &S,
    all: &Members,
    numbers: &[i128],
) -> Result<Members, Memory>
    requires { AreInForm (S.ladder scale.now) all.now }
    ensures form { IfOk result (AreInForm (S.ladder scale.now)) }
    ensures exact { IfOk result (λ new. (v : ℤ)
        → HasMember (S.ladder scale.now) new v ↔ (HasMember (S.ladder scale.now) all.now v × Contains numbers.now v)) }
{
    let numbers = sorted(alloc, numbers, &[])?;
    match all {
        Members::Listed(list) => {
            let members = common(alloc, list.members.as_slice(), numbers.as_slice())?;
            Ok(Members::Listed(Shortlist {
                window: list.window,
                members,
            }))
        }
        Members::Sifted(sieve) => {
            let window = sieve.window;
            let members = sifted(
                alloc,
                scale,
                window,
                sieve.excluded.as_slice(),
                numbers.as_slice(),
            )?;
            Ok(Members::Listed(Shortlist { window, members }))
        }
    }
}

/// The members that are none of the numbers.
fn apart<S: Scale>(
    alloc: Global,
    scale: &S,
    all: &Members,
    numbers: &[i128],
) -> Result<Members, Memory>
    requires { AreInForm (S.ladder scale.now) all.now }
    ensures form { IfOk result (AreInForm (S.ladder scale.now)) }
    ensures exact { IfOk result (λ new. (v : ℤ)
        → HasMember (S.ladder scale.now) new v ↔ (HasMember (S.ladder scale.now) all.now v
        × (¬ Contains numbers.now v))) }
{
    match all {
        Members::Listed(list) => {
            let window = list.window;
            let numbers = sorted(alloc, numbers, &[])?;
            let members = sifted(
                alloc,
                scale,
                window,
                numbers.as_slice(),
                list.members.as_slice(),
            )?;
            Ok(Members::Listed(Shortlist { window, members }))
        }
        Members::Sifted(sieve) => {
            let window = sieve.window;
            let others = sifted(alloc, scale, window, sieve.excluded.as_slice(), numbers)?;
            let excluded = sorted(alloc, sieve.excluded.as_slice(), others.as_slice())?;
            let next = next_of(alloc, scale, window, excluded.as_slice())?;
            Ok(Members::Sifted(Sieve {
                window,
                excluded,
                next,
            }))
        }
    }
}
