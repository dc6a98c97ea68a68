//! The walk over the rows of disjoint parts.

ghost use Rattle.std.specs.Prelude.{◌≡◌, ◌<◌, ◌≤◌, ℕ, ◌≢◌, List, Some, None, length, min, true, false, IfSome, IfNone, IfOk, All};
ghost use Rattle.std.specs.List.{sum_by};
ghost use Rattle.helix_base.specs.Count.{last_count};
ghost use Rattle.helix_rows.specs.Regions.{NoneFalls};
ghost use Rattle.helix_rows.specs.Parts.{AsksAtMost, InWalk, IsNextPlace, IsNextRow, IsAtEnd, IsRowFor, KeepsParts, ArePartsOf, AreRegionsOf};
ghost use Rattle.helix_rows.specs.Inner.Places.{IsWalk, place_of};
ghost use Rattle.helix_values.specs.Slot.{FitsSlot};

use crate::climb::{descend, raise};
use crate::copy::copy_row;
use crate::follow::raise_any;
use crate::layout::{Layout, has_empty_part, layout_of, most_regions};
use crate::numbers::{Numbers, lists_of};
use crate::offer::Found;
use crate::part::Part;
use crate::region::Region;
use crate::state::State;
use helix_base::{Ledger, List, Memory, Steps};
use helix_values::{RowBuf, Slot};
use std::alloc::Global;
use std::marker::Model;

/// What the place is: nothing, any row that was sought, or a row that was given.
#[derive(Clone, Copy, Debug, PartialEq, Eq)]
pub(crate) enum Place {
    Nothing,
    Sought,
    Given,
}

/// The rows that are in each of several parts, in ascending order, one at a time. Contracts see the parts, the regions,
/// the number of fields, and the place.
#[derive(Drop)]
pub struct RowWalk<R: Region> {
    pub(crate) layout: Layout,
    pub(crate) state: State<R>,
    pub(crate) place: Place,
    pub(crate) own: Slot,
    pub(crate) empty: bool,
}

impl<R: Region> Model for RowWalk<R> {
    ghost use Rattle.std.specs.Prelude.{length};
    ghost use Rattle.helix_rows.specs.Parts.{Walk};
    ghost use Rattle.helix_rows.specs.Inner.Places.{IsWalk, place_of};

    ghost Value = { Walk R };

    ghost view = { λ w. record {
      parts = w.layout.parts;
      regions = w.state.regions.items;
      fields = length w.state.row;
      place = place_of w.place w.state.row;
    } };

    ghost invariant = { λ w. IsWalk R.fields R.classes R.HasRow w.layout w.state.regions.items w.state.alive.items
        w.state.row w.state.found.numbers.room w.place w.empty };
}

impl<R: Region + Drop> RowWalk<R> {
    /// Opens the walk over rows of this many fields. The place is nothing. A part may have no region: no row is in the
    /// parts then.
    pub fn open(
        alloc: Global,
        parts: List<Part>,
        regions: Vec<R>,
        fields: usize,
    ) -> Result<RowWalk<R>, Memory>
        requires parts { ArePartsOf fields parts }
        requires regions { AreRegionsOf R.fields R.classes R.HasRow regions.items parts }
        ensures { IfOk result (λ walk. walk ≡ record {
          parts = parts;
          regions = regions.items;
          fields = fields;
          place = None;
        }) }
    {
        let layout = layout_of(alloc, parts, fields)?;
        let empty = has_empty_part(&layout);
        let room = most_regions(layout.parts.as_slice());
        let alive = lists_of(alloc, fields, room)?;
        let found = Found {
            numbers: Numbers::open(alloc, room)?,
            best: Slot::new(),
            spare: Slot::new(),
        };
        let row = RowBuf::open(alloc, fields)?;
        let state = State {
            regions,
            alive,
            row,
            found,
        };
        Ok(RowWalk {
            layout,
            state,
            place: Place::Nothing,
            own: Slot::new(),
            empty,
        })
    }
}

impl<R: Region> RowWalk<R> {
    /// Makes the next row the place, and answers how many first cells it has in common with the place before, 0 where
    /// that was nothing. Answers `None` where no row of the parts is above the place, and leaves the place.
    pub fn step<L: Ledger>(&mut self, steps: &mut Steps<L>) -> Option<usize>
        ensures next { IfSome result (IsNextPlace (InWalk R.HasRow self.old) self.old.place self.new.place) }
        ensures end { IfNone result (IsAtEnd (InWalk R.HasRow self.old) self.old.place self.new.place) }
        ensures parts { KeepsParts R.fields R.classes R.asked R.HasRow self.old self.new }
        ensures asked { AsksAtMost R.asked 2 self.old self.new.regions }
        ensures steps { NoneFalls steps.old.counts steps.new.counts }
    {
        if self.empty {
            return None;
        }
        match self.place {
            Place::Nothing => {
                descend(&self.layout, &mut self.state, 0, steps);
                self.place = Place::Given;
                Some(0)
            }
            Place::Sought => {
                match raise_any(&self.layout, &mut self.state, &mut self.own, steps) {
                    Some(field) => {
                        descend(&self.layout, &mut self.state, field + 1, steps);
                        self.place = Place::Given;
                        Some(field)
                    }
                    None => None,
                }
            }
            Place::Given => {
                let end = self.state.row.len();
                match raise(&self.layout, &mut self.state, end, steps) {
                    Some(field) => {
                        descend(&self.layout, &mut self.state, field + 1, steps);
                        Some(field)
                    }
                    None => None,
                }
            }
        }
    }

    /// Makes the next row the place and copies it. Where there is none, the copy is unchanged.
    pub fn advance<L: Ledger>(&mut self, out: &mut RowBuf, steps: &mut Steps<L>) -> bool
        requires { length out.old ≡ self.old.fields }
        ensures next { result ≡ true → (self.new.place ≡ Some out.new)
            × IsNextRow (InWalk R.HasRow self.old) self.old.place out.new }
        ensures end { result ≡ false → (out.new ≡ out.old)
            × IsAtEnd (InWalk R.HasRow self.old) self.old.place self.new.place }
        ensures parts { KeepsParts R.fields R.classes R.asked R.HasRow self.old self.new }
        ensures asked { AsksAtMost R.asked 2 self.old self.new.regions }
        ensures steps { NoneFalls steps.old.counts steps.new.counts }
    {
        match self.step(steps) {
            Some(_) => {
                copy_row(&self.state.row, out);
                true
            }
            None => false,
        }
    }

    /// Makes any row of as many fields the place, whether it is in the parts or not. Its cells are null or of the
    /// classes of the regions of their parts. It asks no question and takes no memory.
    pub fn seek_after(&mut self, row: &RowBuf)
        requires count { length row.now ≡ self.old.fields }
        requires fit { All FitsSlot row.now }
        requires cells { IsRowFor R.classes self.old.regions self.old.parts row.now }
        ensures { self.new ≡ record {
          parts = self.old.parts;
          regions = self.old.regions;
          fields = self.old.fields;
          place = Some row.now;
        } }
    {
        copy_row(row, &mut self.state.row);
        self.place = Place::Sought;
    }

    /// The row of the place.
    pub fn row(&self) -> &RowBuf
        requires { self.now.place ≢ None }
        ensures { self.now.place ≡ Some result.now }
    {
        &self.state.row
    }

    /// How many questions the regions were asked, together, up to 2^64 - 1.
    pub fn asked(&self) -> u64
        ensures { result ≡ min (sum_by R.asked self.now.regions) last_count }
    {
        asked_of(self.state.regions.as_slice())
    }
}

/// How many questions regions were asked, together.
fn asked_of<R: Region>(regions: &[R]) -> u64
    ensures { result ≡ min (sum_by R.asked regions.now) last_count }
{
    let mut total: u64 = 0;
    for region in regions {
        total = total.saturating_add(region.asked());
    }
    total
}
