//! The good rows of one boolean field, in ascending order.

ghost use Rattle.std.specs.Prelude.{◌≡◌};
ghost use Rattle.helix_run.specs.Profile.{Field};
ghost use Rattle.helix_run.specs.Rows.{IsFlagAnswer};
ghost use Rattle.helix_run.specs.Inner.Rows.{rows_of};

/// The cells of the good rows, in ascending order. `None` is null.
pub fn answer(nullable: bool) -> &'static [Option<bool>]
    ensures { (field : Field) → field.nullable ≡ nullable → IsFlagAnswer field (rows_of result.now) }
{
    if nullable {
        &[Some(false), Some(true), None]
    } else {
        &[Some(false), Some(true)]
    }
}
