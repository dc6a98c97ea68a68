//! The members of a grid, in the form that a question is answered from.

ghost use Rattle.std.specs.Prelude.{◌≡◌, ◌≤ℤ◌, ◌<ℤ◌};
ghost use Rattle.helix_grids.specs.Inner.Members.{AreInForm, HasMember, window_of};
ghost use Rattle.helix_grids.specs.Tests.{IsLeastOf};

use crate::search::first_from;
use crate::sieve::{first_sifted, next_sifted};
use crate::window::Window;
use helix_ladders::Scale;

/// Values of a window, in ascending order.
#[derive(Debug, Drop)]
pub struct Shortlist {
    pub window: Window,
    pub members: Vec<i128>,
}

/// A window without the excluded values.
#[derive(Debug, Drop)]
pub struct Sieve {
    pub window: Window,
    /// In ascending order.
    pub excluded: Vec<i128>,
    /// To each excluded value the least member above it, so that a run of excluded neighbours costs
    /// one search.
    pub next: Vec<Option<i128>>,
}

/// The values that pass all tests.
#[derive(Debug, Drop)]
pub enum Members {
    /// Those of a list.
    Listed(Shortlist),
    /// What a sieve leaves.
    Sifted(Sieve),
}

/// The window that the members lie in.
pub fn window(all: &Members) -> Window
    ensures { result ≡ window_of all.now }
{
    match all {
        Members::Listed(list) => list.window,
        Members::Sifted(sieve) => sieve.window,
    }
}

/// The least member that isn't below a bound.
#[inline(always)]
pub fn first_member<S: Scale>(scale: &S, all: &Members, bound: i128) -> Option<i128>
    requires { AreInForm (S.ladder scale.now) all.now }
    ensures { IsLeastOf (λ v. HasMember (S.ladder scale.now) all.now v × (bound ≤ℤ v)) result }
{
    match all {
        Members::Listed(list) => first_from(list.members.as_slice(), bound),
        Members::Sifted(sieve) => first_sifted(
            scale,
            sieve.window,
            sieve.excluded.as_slice(),
            sieve.next.as_slice(),
            bound,
        ),
    }
}

/// The least member above another one.
#[inline(always)]
pub fn next_member<S: Scale>(scale: &S, all: &Members, member: i128) -> Option<i128>
    requires form { AreInForm (S.ladder scale.now) all.now }
    requires member { HasMember (S.ladder scale.now) all.now member }
    ensures { IsLeastOf (λ v. HasMember (S.ladder scale.now) all.now v × (member <ℤ v)) result }
{
    match all {
        Members::Listed(list) => first_from(list.members.as_slice(), member + 1),
        Members::Sifted(sieve) => next_sifted(
            scale,
            sieve.window,
            sieve.excluded.as_slice(),
            sieve.next.as_slice(),
            member,
        ),
    }
}
