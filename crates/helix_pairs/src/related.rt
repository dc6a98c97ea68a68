//! The bound of a relation of a profile.

ghost use Rattle.std.specs.Prelude.{ℤ, ◌≡◌, ◌↔◌};
ghost use Rattle.helix_values.specs.declared.cell.Cell.TheVariants.{Number, Moment};
ghost use Rattle.helix_profile.specs.Satisfaction.{Signed};
ghost use Rattle.helix_pairs.specs.Related.{AreRelated};
ghost use Rattle.helix_pairs.specs.Ends.{EndsRelated, IsByUnits};
ghost use Rattle.helix_pairs.specs.OffsetShift.{low_of, high_of, applied_by};
ghost use Rattle.helix_pairs.specs.ShiftOf.{IsShiftOf};

use crate::bound::Bound;
use crate::comparison::{End, signed};
use crate::offset_shift::OffsetShift;
use crate::range::ValueRange;
use helix_profile::Relation;

/// The bound of a relation, or of its negation where the sign is `false`, on the end that is the child.
pub fn bound_of(
    relation: &Relation,
    sign: bool,
    child: End,
    range: ValueRange,
) -> Bound<OffsetShift>
    requires { IsShiftOf range.low range.high relation.now.offset }
    ensures moments { (p v : ℤ) → AreRelated result.comparison result.child (applied_by result.shift) p v
        ↔ Signed sign (EndsRelated relation.now child Moment p v) }
    ensures numbers { IsByUnits relation.now.offset
        → (p v : ℤ) → AreRelated result.comparison result.child (applied_by result.shift) p v
        ↔ Signed sign (EndsRelated relation.now child Number p v) }
    ensures child { result.child ≡ child }
    ensures low { low_of result.shift ≡ range.low }
    ensures high { high_of result.shift ≡ range.high }
{
    let shift = OffsetShift::of(range, relation.offset);
    Bound::new(signed(relation.compare, sign), child, shift)
}
