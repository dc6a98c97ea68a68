//! A place among the good rows of a profile.

ghost use Rattle.std.specs.Prelude.{◌≡◌, ◌≢◌, None, Some, IfOk, IfSome, IfNone, length, true, false};
ghost use Rattle.helix_profile.specs.Good.{HasShape, IsGood};
ghost use Rattle.helix_rows.specs.Parts.{IsNextPlace, IsNextRow};
ghost use Rattle.helix_writing.specs.GoodRows.{NoneAbove};

use helix_base::{Memory, Quiet, Steps};
use helix_profile::Profile;
use helix_values::RowBuf;
use helix_walk::Walk;
use std::alloc::Global;
use std::marker::Model;

/// The good rows of a profile, in ascending order, one at a time. Contracts see the profile and the place: nothing at
/// first, and then a row, above which the next one is looked for.
#[derive(Drop)]
pub struct GoodRows {
    profile: Profile,
    walk: Walk,
    steps: Steps<Quiet>,
}

impl Model for GoodRows {
    ghost use Rattle.helix_writing.specs.GoodRows.{Place, place_code};
    ghost use Rattle.helix_writing.specs.Inner.Walks.{IsWalkOf};

    ghost Value = { Place };

    ghost coded = { place_code };

    ghost view = { λ rows. record { profile = rows.profile; row = rows.walk.place } };

    ghost invariant = { λ rows. IsWalkOf rows.profile rows.walk };
}

impl GoodRows {
    /// The good rows of a profile, before the first one.
    pub fn open(alloc: Global, profile: Profile) -> Result<GoodRows, Memory>
        ensures { IfOk result (λ rows. rows ≡ record { profile = profile; row = None }) }
    {
        let walk = Walk::open(alloc, &profile)?;
        Ok(GoodRows {
            profile,
            walk,
            steps: Steps::new(Quiet),
        })
    }

    /// The profile.
    pub fn profile(&self) -> &Profile
        ensures { result.now ≡ self.now.profile }
    {
        &self.profile
    }

    /// Makes the next good row the place, and answers how many first cells it has in common with the place before, 0
    /// where that was nothing. Answers `None` where no good row is above the place, and leaves the place. It takes no
    /// memory.
    pub fn step(&mut self) -> Option<usize>
        ensures next { IfSome result (IsNextPlace (IsGood self.old.profile) self.old.row self.new.row) }
        ensures end { IfNone result (self.new.row ≡ self.old.row) }
        ensures none { IfNone result (NoneAbove self.old.profile self.old.row) }
        ensures profile { self.new.profile ≡ self.old.profile }
    {
        self.walk.step(&mut self.steps)
    }

    /// Makes the next good row the place and copies it. Where there is none, both are unchanged. It takes no memory.
    pub fn advance(&mut self, out: &mut RowBuf) -> bool
        requires { length out.old ≡ length self.old.profile.fields }
        ensures place { result ≡ true → self.new.row ≡ Some out.new }
        ensures next { result ≡ true → IsNextRow (IsGood self.old.profile) self.old.row out.new }
        ensures end { result ≡ false → self.new.row ≡ self.old.row }
        ensures unchanged { result ≡ false → out.new ≡ out.old }
        ensures none { result ≡ false → NoneAbove self.old.profile self.old.row }
        ensures length { length out.new ≡ length out.old }
        ensures profile { self.new.profile ≡ self.old.profile }
    {
        self.walk.advance(out, &mut self.steps)
    }

    /// Makes any row of the right shape the place, whether it is good or not. It takes no memory.
    pub fn seek_after(&mut self, row: &RowBuf)
        requires { HasShape self.old.profile.fields row.now }
        ensures { self.new ≡ record { profile = self.old.profile; row = Some row.now } }
    {
        self.walk.seek_after(row);
    }

    /// The row of the place.
    pub fn row(&self) -> &RowBuf
        requires { self.now.row ≢ None }
        ensures { self.now.row ≡ Some result.now }
    {
        self.walk.row()
    }
}
