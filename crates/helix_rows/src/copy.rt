//! Copies of rows.

ghost use Rattle.std.specs.Prelude.{◌≡◌, length, All};
ghost use Rattle.helix_values.specs.Slot.{FitsSlot};

use helix_values::RowBuf;

/// Makes a row equal to another one of as many fields. It takes no memory.
pub(crate) fn copy_row(from: &RowBuf, to: &mut RowBuf)
    requires count { length from.now ≡ length to.old }
    requires fit { All FitsSlot from.now }
    ensures { to.new ≡ from.now }
{
    for field in 0..from.len() {
        to.set(field, from.slot(field).view());
    }
}
