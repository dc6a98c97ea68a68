//! Relations with a sign.

use helix_profile::Relation;

/// A relation, or with a false sign its negation.
#[derive(Clone, Copy, Debug, PartialEq, Eq)]
pub struct SignedRelation {
    pub relation: Relation,
    pub sign: bool,
}
