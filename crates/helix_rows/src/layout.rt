//! The fields as levels of their parts.

ghost use Rattle.std.specs.Prelude.{◌≡◌, ◌<◌, ◌≤◌, ℕ, length, IfSome, IfNone, IfOk};
ghost use Rattle.std.specs.List.{All, Any, Contains};
ghost use Rattle.helix_rows.specs.Regions.{number_at};
ghost use Rattle.helix_rows.specs.Parts.{ArePartsOf};
ghost use Rattle.helix_rows.specs.Inner.Levels.{IsLayout, IsLevel};
ghost use Rattle.helix_rows.specs.Inner.Places.{IsEmptyIf};

use crate::part::Part;
use helix_base::{List, Memory};
use std::alloc::Global;

/// Where a field is: its part, and its place among the part's fields.
#[derive(Clone, Copy, Debug)]
pub(crate) struct Level {
    pub(crate) part: usize,
    pub(crate) position: usize,
}

/// The parts, and the level of each field.
#[derive(Debug, Drop)]
pub(crate) struct Layout {
    pub(crate) parts: List<Part>,
    pub(crate) levels: List<Level>,
}

/// Where a field is among the fields of a part.
fn position_of(fields: &[u32], field: usize) -> Option<usize>
    ensures some { IfSome result
        (λ position. (position < length fields.now) × (number_at fields.now position ≡ field)) }
    ensures none { IfNone result (¬ (Contains fields.now field)) }
{
    for (position, other) in fields.iter().enumerate() {
        if *other as usize == field {
            return Some(position);
        }
    }
    None
}

/// The level of a field.
fn level_of(parts: &[Part], field: usize) -> Level
    requires { Any (λ part. Contains part.fields field) parts.now }
    ensures { IsLevel parts.now field result }
{
    for (number, part) in parts.iter().enumerate() {
        if let Some(position) = position_of(part.fields.as_slice(), field) {
            return Level {
                part: number,
                position,
            };
        }
    }
    unreachable!()
}

/// The levels of all fields.
pub(crate) fn layout_of(alloc: Global, parts: List<Part>, fields: usize) -> Result<Layout, Memory>
    requires { ArePartsOf fields parts }
    ensures parts { IfOk result (λ layout. layout.parts ≡ parts) }
    ensures layout { IfOk result (λ layout. IsLayout layout fields) }
{
    let mut levels = List::new(alloc);
    for field in 0..fields {
        levels.push(level_of(parts.as_slice(), field))?;
    }
    Ok(Layout { parts, levels })
}

/// The greater of two numbers.
fn greater(a: usize, b: usize) -> usize
    ensures first { a ≤ result }
    ensures second { b ≤ result }
    ensures least { (bound : ℕ) → a ≤ bound → b ≤ bound → result ≤ bound }
{
    if a < b { b } else { a }
}

/// The greatest number of regions of a part.
pub(crate) fn most_regions(parts: &[Part]) -> usize
    ensures few { All (λ part. length part.regions ≤ result) parts.now }
    ensures least { (bound : ℕ) → All (λ part. length part.regions ≤ bound) parts.now → result ≤ bound }
{
    let mut most = 0;
    for part in parts {
        most = greater(most, part.regions.as_slice().len());
    }
    most
}

/// Whether some part has no region.
pub(crate) fn has_empty_part(layout: &Layout) -> bool
    ensures { IsEmptyIf result layout.now }
{
    for part in layout.parts.as_slice() {
        if part.regions.as_slice().is_empty() {
            return true;
        }
    }
    false
}
