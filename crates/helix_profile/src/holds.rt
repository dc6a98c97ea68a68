//! What a test says of a value, plainly.

ghost use Rattle.std.specs.Prelude.{◌↔◌, IsTrue};
ghost use Rattle.helix_profile.specs.Holds.{Holds};
ghost use Rattle.helix_values.specs.View.{cell_of};

use crate::compare::{cells_compare, is_member, is_same};
use crate::grid::is_on_level;
use crate::relation::Compare;
use crate::test::Test;
use helix_expr::{contains_match, matches};
use helix_values::CellRef;

/// Whether a test holds of a value that isn't null.
pub fn holds(test: &Test, value: CellRef<'_>) -> bool
    ensures { IsTrue result ↔ Holds test.now (cell_of value.entry) }
{
    match (test, value) {
        (Test::IsNull(wanted), _) => !*wanted,
        (Test::EqualTo(operand), _) => is_same(value, operand.view()),
        (Test::InSet(members), _) => is_member(members.as_slice(), value),
        (Test::Matching(regex), CellRef::Text(codes)) => matches(&regex.expr, codes),
        (Test::Containing(regex), CellRef::Text(codes)) => contains_match(regex, codes),
        (Test::OfLength(count), CellRef::Text(codes)) => codes.len() == *count as usize,
        (Test::LongerThan(count), CellRef::Text(codes)) => codes.len() > *count as usize,
        (Test::ShorterThan(count), CellRef::Text(codes)) => codes.len() < *count as usize,
        (Test::Above(bound), _) => cells_compare(Compare::Above, value, bound.view()),
        (Test::AtLeast(bound), _) => cells_compare(Compare::AtLeast, value, bound.view()),
        (Test::Below(bound), _) => cells_compare(Compare::Below, value, bound.view()),
        (Test::AtMost(bound), _) => cells_compare(Compare::AtMost, value, bound.view()),
        (Test::OnGrid(level), _) => is_on_level(*level, value),
        _ => false,
    }
}
