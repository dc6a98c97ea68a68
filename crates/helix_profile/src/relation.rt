//! Relations between two fields.

use helix_values::Offset;

/// How two values compare.
#[derive(Clone, Copy, Debug, PartialEq, Eq)]
pub enum Compare {
    Equal,
    Above,
    AtLeast,
    Below,
    AtMost,
}

/// The value of the left field compares so with that of the right one, shifted by the offset.
/// Fields are numbered from 0.
#[derive(Clone, Copy, Debug, PartialEq, Eq)]
pub struct Relation {
    pub left: u32,
    pub compare: Compare,
    pub right: u32,
    pub offset: Offset,
}
