//! Relations as one of their fields sees them.

use helix_pairs::End;
use helix_profile::Relation;

/// A relation, or its negation where the sign is `false`, between a parent and a child.
#[derive(Clone, Copy, Debug)]
pub struct SidedRelation {
    pub relation: Relation,
    pub sign: bool,
    /// The end that the child is; the parent is the other one.
    pub child: End,
}
