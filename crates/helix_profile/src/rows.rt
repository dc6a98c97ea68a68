//! Sets of rows.

ghost use Rattle.std.specs.Prelude.{List};
ghost use Rattle.helix_values.specs.declared.cell.Cell.{Cell};

use crate::profile::Profile;

/// A set of rows, which proofs alone speak of.
pub trait RowSet {
    ghost Has: { Self → List Cell → Type 0 };
}

impl RowSet for Profile {
    ghost use Rattle.helix_profile.specs.Good.{IsGood};

    ghost Has = { IsGood };
}
