//! The universe of a kind.

ghost use Rattle.std.specs.Prelude.{◌↔◌, ◌^◌, IsTrue};
ghost use Rattle.helix_ladders.specs.Calendar.{IsMoment, millis_of_day};
ghost use Rattle.helix_ladders.specs.Grids.{IsMultipleOf};
ghost use Rattle.helix_values.specs.Universe.{InUniverse, IsDecimal};
ghost use Rattle.helix_values.specs.View.{cell_of};

use crate::cell::CellRef;
use crate::codes::valid;
use crate::kind::Kind;
use helix_ladders::{GREATEST, LAST_MOMENT, MILLIS_OF_DAY, ONE, is_multiple_of};

/// The most characters that a text may have.
const LONGEST: usize = 1000;

/// Whether a cell holds a value of a kind.
pub fn in_universe(kind: Kind, cell: CellRef<'_>) -> bool
    ensures { IsTrue result ↔ InUniverse kind (cell_of cell.entry) }
{
    match (kind, cell) {
        (Kind::Boolean, CellRef::Bool(_)) => true,
        (Kind::Integer, CellRef::Number(units)) => is_number(units) && is_whole(units),
        (Kind::Decimal, CellRef::Number(units)) => is_number(units),
        (Kind::Text(alphabet), CellRef::Text(codes)) => {
            codes.len() <= LONGEST && codes.iter().all(|code| alphabet.has(*code))
        }
        (Kind::Date, CellRef::Moment(at)) => is_moment(at) && is_midnight(at),
        (Kind::DateTime, CellRef::Moment(at)) => is_moment(at),
        (Kind::Code(code), CellRef::Text(word)) => valid(code, word),
        _ => false,
    }
}

fn is_number(units: i128) -> bool
    ensures { IsTrue result ↔ IsDecimal units }
{
    -GREATEST <= units && units <= GREATEST
}

fn is_whole(units: i128) -> bool
    ensures { IsTrue result ↔ IsMultipleOf (10 ^ 15) units }
{
    is_multiple_of(ONE, units)
}

fn is_moment(at: i64) -> bool
    ensures { IsTrue result ↔ IsMoment at }
{
    0 <= at && at <= LAST_MOMENT
}

fn is_midnight(at: i64) -> bool
    ensures { IsTrue result ↔ IsMultipleOf millis_of_day at }
{
    is_multiple_of(MILLIS_OF_DAY as u64, i128::from(at))
}
