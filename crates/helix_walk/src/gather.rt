//! The regions of all groups, and the parts of a walk over them.

ghost use Rattle.std.specs.Prelude.{◌≡◌, ◌+◌, ◌≤◌, ◌^◌, [], ◌∷◌, ◌++◌, length, IfOk, OnOk};
ghost use Rattle.std.specs.List.{AllByRecursion};
ghost use Rattle.helix_options.specs.Parts.{IsPartOf};
ghost use Rattle.helix_walk.specs.Inner.Numbers.{numbers_from};
ghost use Rattle.helix_walk.specs.Parts.{ArePartsFor};

use helix_base::{List, Memory, Numbers32};
use helix_options::regions;
use helix_partition::Partition;
use helix_profile::Profile;
use helix_relations::{Region, Regions};
use helix_rows::Part;
use std::alloc::Global;

/// Parts, and the regions that they number.
#[derive(Drop)]
pub(crate) struct Gathered {
    pub(crate) parts: List<Part>,
    pub(crate) regions: Vec<Region>,
}

/// So many numbers from the first one on. More than 2^32 regions count as want of memory.
fn numbers_of(alloc: Global, first: usize, count: usize) -> Result<Numbers32, Memory>
    ensures { IfOk result (λ numbers. numbers ≡ numbers_from first count) }
{
    let mut numbers = Numbers32::new(alloc);
    for index in 0..count {
        numbers.push(number_of(first, index)?)?;
    }
    Ok(numbers)
}

/// The number that many after the first one.
fn number_of(first: usize, index: usize) -> Result<u32, Memory>
    ensures { IfOk result (λ number. number ≡ first + index) }
{
    let limit = u32::MAX as usize;
    if first > limit || index > limit - first {
        return Err(Memory);
    }
    Ok((first + index) as u32)
}

/// Appends the regions of a group, and the part of the group with their numbers. On `Err`, memory ran out.
fn push_part(
    alloc: Global,
    group: &Partition,
    found: Regions,
    parts: &mut List<Part>,
    regions: &mut Vec<Region>,
) -> Result<(), Memory>
    ensures regions { OnOk result (regions.new.items ≡ regions.old.items ++ found) }
    ensures parts { OnOk result (parts.new ≡ parts.old ++ (record {
      fields = group.now.fields;
      regions = numbers_from (length regions.old.items) (length found);
    }) ∷ []) }
{
    let numbers = numbers_of(alloc, regions.len(), found.len())?;
    let mut found = found.into_vec();
    regions.append(&mut found)?;
    parts.push(Part {
        fields: group.fields.copy(alloc)?,
        regions: numbers,
    })
}

/// The parts of groups, and their regions.
pub(crate) fn gather(
    alloc: Global,
    profile: &Profile,
    groups: &[Partition],
) -> Result<Gathered, Memory>
    requires { AllByRecursion (IsPartOf profile.now) groups.now }
    ensures { IfOk result (λ gathered. ArePartsFor profile.now gathered.regions.items groups.now gathered.parts) }
{
    let mut parts = List::new(alloc);
    let mut all = Vec::new(alloc);
    for group in groups {
        let found = regions(alloc, profile, group)?;
        push_part(alloc, group, found, &mut parts, &mut all)?;
    }
    Ok(Gathered {
        parts,
        regions: all,
    })
}
