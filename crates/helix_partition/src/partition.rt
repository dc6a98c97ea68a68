//! A group of fields with its constraints.

ghost use Rattle.std.specs.Prelude.{◌≡◌, IfOk};

use helix_base::{List, Memory, Numbers32, TryCopy};
use std::alloc::Global;

/// A group of linked fields, and the constraints on them: their positions from 0, ascending.
#[derive(Debug, Drop)]
pub struct Partition {
    pub fields: Numbers32,
    pub constraints: Numbers32,
}

/// Groups in the order of their least fields.
pub type Partitions = List<Partition>;

impl Partition {
    /// An equal group.
    pub fn copy(&self, alloc: Global) -> Result<Partition, Memory>
        ensures { IfOk result (λ copy. copy ≡ self.now) }
    {
        Ok(Partition {
            fields: self.fields.copy(alloc)?,
            constraints: self.constraints.copy(alloc)?,
        })
    }
}

impl TryCopy for Partition {
    fn try_copy(&self, alloc: Global) -> Result<Partition, Memory> {
        self.copy(alloc)
    }
}
