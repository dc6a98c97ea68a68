//! Regions that a list gives up.

ghost use Rattle.std.specs.Prelude.{◌≡◌};

use crate::region::Region;
use crate::regions::Regions;

impl Regions {
    /// The regions in order.
    pub fn into_vec(self) -> Vec<Region>
        ensures { result.items ≡ self }
    {
        let Regions { items } = self;
        items
    }
}
