//! The fields of a profile.

ghost use Rattle.std.specs.Prelude.{◌≡◌, IfOk};

use helix_base::{List, Memory, Text, TryCopy};
use helix_values::Kind;
use std::alloc::Global;

/// A field: a name, what values it has, and whether it may be null.
#[derive(Debug, Drop)]
pub struct Field {
    pub name: Text,
    pub kind: Kind,
    pub nullable: bool,
}

/// Fields in their declared order.
pub type Fields = List<Field>;

impl Field {
    pub fn copy(&self, alloc: Global) -> Result<Field, Memory>
        ensures { IfOk result (λ copy. copy ≡ self.now) }
    {
        Ok(Field {
            name: self.name.copy(alloc)?,
            kind: self.kind,
            nullable: self.nullable,
        })
    }
}

impl TryCopy for Field {
    fn try_copy(&self, alloc: Global) -> Result<Field, Memory> {
        self.copy(alloc)
    }
}
