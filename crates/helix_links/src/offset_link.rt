//! The link of numbers or moments.

ghost use Rattle.std.specs.List.{All};
ghost use Rattle.helix_links.specs.Quantities.{IsBoundIn};

use crate::quantity::Quantity;
use helix_base::List;
use helix_pairs::{Bound, OffsetShift};

/// All bounds that a value of a number or moment sets on another one.
#[derive(Debug, Drop)]
pub struct OffsetLink {
    pub quantity: Quantity,
    pub bounds: List<Bound<OffsetShift>>,
    ghost in_range: { All (IsBoundIn quantity) bounds },
}
