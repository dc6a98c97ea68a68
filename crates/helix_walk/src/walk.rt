//! The walk over the good rows of a profile.

ghost use Rattle.std.specs.Prelude.{◌≡◌, ◌↔◌, ◌<◌, ◌≤◌, ◌≢◌, List, Some, None, length, min, true, false, IfSome, IfNone, IfOk};
ghost use Rattle.std.specs.List.{All, sum_by};
ghost use Rattle.helix_base.specs.Count.{last_count};
ghost use Rattle.helix_profile.specs.Good.{IsGood};
ghost use Rattle.helix_profile.specs.Width.{profile_width};
ghost use Rattle.helix_relations.specs.Pieces.{IsRegionPiece};
ghost use Rattle.helix_rows.specs.Parts.{AsksAtMost, InWalk, IsNextPlace, IsNextRow, IsAtEnd};
ghost use Rattle.helix_rows.specs.Regions.{NoneFalls};
ghost use Rattle.helix_values.specs.declared.cell.Cell.{Cell};
ghost use Rattle.helix_walk.specs.Fields.{IsWalkOver, HasShapeFor};
ghost use Rattle.helix_walk.specs.Kept.{KeepsWalk};

use crate::gather::gather;
use helix_base::{Ledger, Memory, Steps};
use helix_partition::partitions;
use helix_profile::Profile;
use helix_relations::Region;
use helix_rows::RowWalk;
use helix_values::RowBuf;
use std::alloc::Global;
use std::marker::Model;

/// The good rows of a profile, in ascending order, one at a time. Contracts see the walk over the parts: the parts with
/// their regions, the number of fields, and the place.
#[derive(Drop)]
pub struct Walk {
    rows: RowWalk<Region>,
}

impl Model for Walk {
    ghost use Rattle.helix_rows.specs.Parts.{Walk as Rows};
    ghost use Rattle.helix_relations.specs.Region.{RegionContent};
    ghost use Rattle.helix_walk.specs.WalkCode.{walk_code};

    ghost Value = { Rows RegionContent };

    ghost coded = { walk_code };

    ghost view = { λ walk. walk.rows };
}

impl Walk {
    /// Opens the walk over the good rows of a profile.
    pub fn open(alloc: Global, profile: &Profile) -> Result<Walk, Memory>
        ensures place { IfOk result (λ walk. walk.place ≡ None) }
        ensures fields { IfOk result (IsWalkOver profile.now.fields) }
        ensures rows { IfOk result (λ walk. (row : List Cell)
            → InWalk IsRegionPiece walk row ↔ IsGood profile.now row) }
        ensures width { IfOk result (λ walk.
            All (λ part. length part.regions ≤ profile_width profile.now) walk.parts) }
    {
        let groups = partitions(alloc, profile)?;
        let gathered = gather(alloc, profile, groups.as_slice())?;
        let count = profile.fields().len();
        Ok(Walk {
            rows: RowWalk::open(alloc, gathered.parts, gathered.regions, count)?,
        })
    }

    /// Makes the next good row the place, and answers how many first cells it has in common with the place before, 0
    /// where that was nothing. Answers `None` where no good row is above the place, and leaves the place.
    pub fn step<L: Ledger>(&mut self, steps: &mut Steps<L>) -> Option<usize>
        ensures next { IfSome result (IsNextPlace (InWalk IsRegionPiece self.old) self.old.place self.new.place) }
        ensures end { IfNone result (IsAtEnd (InWalk IsRegionPiece self.old) self.old.place self.new.place) }
        ensures parts { KeepsWalk self.old self.new }
        ensures asked { AsksAtMost (λ region. region.asked) 2 self.old self.new.regions }
        ensures steps { NoneFalls steps.old.counts steps.new.counts }
    {
        self.rows.step(steps)
    }

    /// Makes the next good row the place and copies it. Where there is none, the copy is unchanged.
    pub fn advance<L: Ledger>(&mut self, out: &mut RowBuf, steps: &mut Steps<L>) -> bool
        requires { length out.old ≡ self.old.fields }
        ensures next { result ≡ true → (self.new.place ≡ Some out.new)
            × IsNextRow (InWalk IsRegionPiece self.old) self.old.place out.new }
        ensures end { result ≡ false → (out.new ≡ out.old)
            × IsAtEnd (InWalk IsRegionPiece self.old) self.old.place self.new.place }
        ensures parts { KeepsWalk self.old self.new }
        ensures asked { AsksAtMost (λ region. region.asked) 2 self.old self.new.regions }
        ensures steps { NoneFalls steps.old.counts steps.new.counts }
    {
        self.rows.advance(out, steps)
    }

    /// Makes any row of the right shape the place, whether it is good or not. It asks no question and takes no memory.
    pub fn seek_after(&mut self, row: &RowBuf)
        requires { HasShapeFor self.old row.now }
        ensures { self.new ≡ record {
          parts = self.old.parts;
          regions = self.old.regions;
          fields = self.old.fields;
          place = Some row.now;
        } }
    {
        self.rows.seek_after(row);
    }

    /// The row of the place.
    pub fn row(&self) -> &RowBuf
        requires { self.now.place ≢ None }
        ensures { self.now.place ≡ Some result.now }
    {
        self.rows.row()
    }

    /// How many questions were asked, up to 2^64 - 1.
    pub fn asked(&self) -> u64
        ensures { result ≡ min (sum_by (λ region. region.asked) self.now.regions) last_count }
    {
        self.rows.asked()
    }
}
