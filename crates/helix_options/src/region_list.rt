//! The regions of a part.

ghost use Rattle.std.specs.Prelude.{◌≡◌, ◌<◌, length, IfOk, OnOk};
ghost use Rattle.std.specs.Bool.{Decides};
ghost use Rattle.std.specs.List.{All, AllByRecursion};
ghost use Rattle.std.specs.List.Sorted.{IsStrictlyIncreasing};
ghost use Rattle.helix_profile.specs.Fields.{all_relations};
ghost use Rattle.helix_relations.specs.Region.{IsRegionRow};
ghost use Rattle.helix_values.specs.declared.cell.Cell.{Cell};
ghost use Rattle.helix_options.specs.Literals.{IsLiteralOf};
ghost use Rattle.helix_options.specs.Parts.{IsPartOf};
ghost use Rattle.helix_options.specs.Regions.{AreRegionsFor, AreFewRegionsFor};
ghost use Rattle.helix_options.specs.Inner.Keeping.{HasRow, IsSameButAsked, AddsRegion};

use crate::narrow::region_of;
use crate::paths::Paths;
use helix_base::{Ledger, Memory, Quiet, Steps};
use helix_partition::Partition;
use helix_profile::Profile;
use helix_relations::{Region, Regions};
use helix_tree::Literal;
use helix_values::{Mark, RowBuf, Slot};
use std::alloc::Global;

/// The regions of a part: a row satisfies the constraints of the part where it is one of a region, and no row is one of
/// two of them. Each has a row.
pub fn regions(alloc: Global, profile: &Profile, part: &Partition) -> Result<Regions, Memory>
    requires { IsPartOf profile.now part.now }
    ensures exact { IfOk result (AreRegionsFor profile.now part.now) }
    ensures few { IfOk result (AreFewRegionsFor profile.now part.now) }
{
    let mut paths = Paths::open(alloc, profile, part)?;
    let mut regions = Regions::new(alloc);
    let mut steps = Steps::new(Quiet);
    while let Some(path) = paths.next()? {
        let fields = part.fields.as_slice();
        push_region(
            alloc,
            profile,
            fields,
            path.as_slice(),
            &mut regions,
            &mut steps,
        )?;
    }
    Ok(regions)
}

/// Appends the region of a path, where it has a row.
fn push_region<L: Ledger>(
    alloc: Global,
    profile: &Profile,
    fields: &[u32],
    path: &[Literal],
    regions: &mut Regions,
    steps: &mut Steps<L>,
) -> Result<(), Memory>
    requires some_field { 0 < length fields.now }
    requires ascending { IsStrictlyIncreasing fields.now }
    requires in_range { All (λ field. field < length profile.now.fields) fields.now }
    requires literals { AllByRecursion
        (IsLiteralOf profile.now.fields fields.now (all_relations profile.now.constraints)) path.now }
    ensures { OnOk result (AddsRegion profile.now fields.now path.now regions.old regions.new) }
{
    let mut region = region_of(alloc, profile, fields, path)?;
    if has_row(alloc, &mut region, steps)? {
        regions.push(region)?;
    }
    Ok(())
}

/// Whether a region has a row. It asks one question.
fn has_row<L: Ledger>(
    alloc: Global,
    region: &mut Region,
    steps: &mut Steps<L>,
) -> Result<bool, Memory>
    requires { 0 < length region.old.fields }
    ensures answer { IfOk result (λ has. Decides has (HasRow region.old)) }
    ensures region { IsSameButAsked region.old region.new }
{
    let prefix = RowBuf::open(alloc, 0)?;
    let mut cell = Slot::new();
    Ok(region.least(&prefix, 0, Mark::Start, &mut cell, steps))
}
