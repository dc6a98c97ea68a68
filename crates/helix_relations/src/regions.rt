//! Lists of regions.

ghost use Rattle.std.specs.Prelude.{◌≡◌, ◌<◌, [], ◌∷◌, ◌++◌, Some, length, slice_get, OnErr, OnOk};
ghost use Rattle.std.specs.Borrow.{sem};
ghost use Rattle.helix_relations.specs.Lending.{LendsRegion};

use crate::region::Region;
use helix_base::Memory;
use std::alloc::Global;
use std::marker::Model;

/// Regions in order, of which one at a time is lent for writing.
#[derive(Drop)]
pub struct Regions {
    pub(crate) items: Vec<Region>,
}

impl Model for Regions {
    ghost use Rattle.std.specs.Prelude.{List};
    ghost use Rattle.std.specs.Coded.{coded_list};
    ghost use Rattle.helix_relations.specs.Region.{RegionContent};
    ghost use Rattle.helix_relations.specs.RegionCode.{region_code};

    ghost Value = { List RegionContent };

    ghost coded = { coded_list region_code };

    ghost view = { λ regions. regions.items.items };
}

impl Regions {
    /// No regions.
    pub fn new(alloc: Global) -> Regions
        ensures { result ≡ [] }
    {
        Regions {
            items: Vec::new(alloc),
        }
    }

    /// How many regions there are.
    pub fn len(&self) -> usize
        ensures { result ≡ length self.now }
    {
        self.items.len()
    }

    /// Appends a region. On `Err`, memory ran out, and the list is as it was.
    pub fn push(&mut self, region: Region) -> Result<(), Memory>
        ensures ok { OnOk result (self.new ≡ self.old ++ region ∷ []) }
        ensures err { OnErr result (self.new ≡ self.old) }
    {
        self.items.push(region)?;
        Ok(())
    }

    /// Lends a region for writing. The others stay.
    pub fn region(&mut self, index: usize) -> &mut Region
        requires { index < length self.old }
        ensures* writes_back { sem 𝓛 (LendsRegion self.entry index result) }
        ensures value { slice_get self.old index ≡ Some result.now }
    {
        &mut self.items[index]
    }
}
