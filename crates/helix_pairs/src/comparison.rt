//! How the values of two related fields compare.

ghost use Rattle.std.specs.Prelude.{ℤ, ◌↔◌};
ghost use Rattle.helix_pairs.specs.Related.{Relates};
ghost use Rattle.helix_profile.specs.Holds.{Compares};
ghost use Rattle.helix_profile.specs.Satisfaction.{Signed};

use helix_profile::Compare;

/// How two values compare; a relation and its negation each have one.
#[derive(Clone, Copy, Debug, PartialEq, Eq)]
pub enum Comparison {
    Equal,
    Different,
    Above,
    AtLeast,
    Below,
    AtMost,
}

/// The end of a relation that a field is. The value of the right end is shifted.
#[derive(Clone, Copy, Debug, PartialEq, Eq)]
pub enum End {
    Left,
    Right,
}

/// The comparison of a relation, or of its negation where the sign is `false`.
pub fn signed(compare: Compare, sign: bool) -> Comparison
    ensures { (x y : ℤ) → Relates result x y ↔ Signed sign (Compares compare x y) }
{
    if sign { plus(compare) } else { minus(compare) }
}

fn plus(compare: Compare) -> Comparison
    ensures { (x y : ℤ) → Relates result x y ↔ Compares compare x y }
{
    match compare {
        Compare::Equal => Comparison::Equal,
        Compare::Above => Comparison::Above,
        Compare::AtLeast => Comparison::AtLeast,
        Compare::Below => Comparison::Below,
        Compare::AtMost => Comparison::AtMost,
    }
}

fn minus(compare: Compare) -> Comparison
    ensures { (x y : ℤ) → Relates result x y ↔ (¬ Compares compare x y) }
{
    match compare {
        Compare::Equal => Comparison::Different,
        Compare::Above => Comparison::AtMost,
        Compare::AtLeast => Comparison::Below,
        Compare::Below => Comparison::AtLeast,
        Compare::AtMost => Comparison::Above,
    }
}
