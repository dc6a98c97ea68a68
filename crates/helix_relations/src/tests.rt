//! Regions of a small profile.

ghost use Rattle.std.specs.Prelude.{◌≡◌, ◌<◌, length, IfOk};
ghost use Rattle.helix_base.specs.Count.{raised};
ghost use Rattle.helix_relations.specs.Asking.{IsMarkFor, OfField};

use crate::{Region, Regions, laws};
use helix_base::{Memory, Quiet, Steps, Text};
use helix_profile::{Constraints, Field, Fields, Profile};
use helix_values::{CellRef, Kind, Mark, RowBuf, Slot};
use std::alloc::Global;
use std::test::Fail;

/// A profile of one nullable truth value, without constraints.
fn one_flag(alloc: Global) -> Result<Profile, Memory>
    ensures { IfOk result (λ profile. length profile.fields ≡ 1) }
{
    let mut fields = Fields::new(alloc);
    let name = Text::of(alloc, "a")?;
    fields.push(Field {
        name,
        kind: Kind::Boolean,
        nullable: true,
    })?;
    Ok(Profile::new(fields, Constraints::new(alloc)))
}

#[test]
fn a_region_of_a_list(rt: HostRuntime) -> Result<(), Fail> {
    let profile = one_flag(rt.alloc())?;
    let mut regions = Regions::new(rt.alloc());
    regions.push(Region::open(rt.alloc(), &profile, &[0])?)?;
    regions.push(Region::open(rt.alloc(), &profile, &[])?)?;
    assert_eq!(rt; regions.len(), 2);
    assert_eq!(rt; regions.region(1).asked(), 0);
    Ok(())
}

#[test]
fn changes_of_a_field(rt: HostRuntime) -> Result<(), Fail> {
    let profile = one_flag(rt.alloc())?;
    let mut region = Region::open(rt.alloc(), &profile, &[0])?;
    region.forbid_null(0);
    region.only_null(0);
    assert_eq!(rt; region.asked(), 0);
    Ok(())
}

/// The least flag from a mark on.
fn flag_from(region: &mut Region, row: &RowBuf, mark: Mark<'_>) -> Option<Option<bool>>
    requires some { 0 < length region.old.fields }
    requires mark { OfField region.old.fields 0 (IsMarkFor mark) }
    ensures { region.new ≡ record region.old { asked = raised region.old.asked } }
{
    let mut found = Slot::new();
    if !region.least(row, 0, mark, &mut found, &mut Steps::new(Quiet)) {
        return None;
    }
    match found.view() {
        CellRef::Bool(truth) => Some(Some(truth)),
        _ => Some(None),
    }
}

#[test]
fn least_flags(rt: HostRuntime) -> Result<(), Fail> {
    let profile = one_flag(rt.alloc())?;
    let row = RowBuf::open(rt.alloc(), 1)?;
    let mut region = Region::open(rt.alloc(), &profile, &[0])?;
    assert_eq!(rt;
        flag_from(&mut region, &row, Mark::Start),
        Some(Some(false))
    );
    assert_eq!(rt;
        flag_from(&mut region, &row, Mark::At(CellRef::Null)),
        Some(None)
    );
    assert_eq!(rt;
        flag_from(&mut region, &row, Mark::After(CellRef::Null)),
        None
    );
    region.forbid_null(0);
    assert_eq!(rt; flag_from(&mut region, &row, Mark::At(CellRef::Null)), None);
    region.only_null(0);
    assert_eq!(rt; flag_from(&mut region, &row, Mark::Start), None);
    assert_eq!(rt; region.asked(), 5);
    Ok(())
}

#[test]
fn laws_of_regions() {
    laws::extending_is_exact::<Region>();
    laws::trees_have_rows::<Region>();
    laws::cells_of_a_region();
    laws::searched_cells_of_a_region::<Region>();
    laws::pieces_of_a_region();
}
