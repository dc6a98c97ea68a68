//! The one written form of each value.

ghost use Rattle.std.specs.Prelude.{◌≡◌, ◌≤◌, ◌<◌, ◌+◌, ◌%◌, ◌∷◌, ◌++◌, take, length, unsigned_abs, IfOk};
ghost use Rattle.helix_ladders.specs.Calendar.{IsMoment, day_of, days_of_calendar, millis_of_day};
ghost use Rattle.helix_texts.specs.Texts.{IsSmall, truth_text, time_text, cell_text as text_of_cell, moment_text as text_of_moment};
ghost use Rattle.helix_values.specs.Universe.{InUniverse};
ghost use Rattle.helix_values.specs.View.{cell_of};

use crate::digits::{put, put_all};
use crate::put::{put_day, put_number, put_time};
use helix_base::{Memory, Text};
use helix_ladders::MILLIS_OF_DAY;
use helix_values::{CellRef, Kind};
use std::alloc::Global;

/// Puts the written form of a truth value, a number or a moment at the beginning of a buffer, one byte
/// a character, and answers how many they are.
pub fn small_text(kind: Kind, cell: CellRef<'_>, out: &mut [u8; 48]) -> usize
    requires value { InUniverse kind (cell_of cell) }
    requires small { IsSmall (cell_of cell) }
    ensures fits { result ≤ 48 }
    ensures text { take result out.new ≡ text_of_cell kind (cell_of cell.entry) }
{
    match cell {
        CellRef::Bool(truth) => put_truth(out, truth),
        CellRef::Number(units) => put_number(out, units),
        CellRef::Moment(at) => put_moment(out, kind, at),
        _ => unreachable!(),
    }
}

/// Puts `true` or `false`.
fn put_truth(out: &mut [u8], truth: bool) -> usize
    requires { 5 ≤ length out.old }
    ensures end { result ≤ 5 }
    ensures text { take result out.new ≡ truth_text truth }
{
    if truth {
        put_all(out, 0, b"true")
    } else {
        put_all(out, 0, b"false")
    }
}

/// Puts a date, or a date and a time.
pub fn put_moment(out: &mut [u8], kind: Kind, at: i64) -> usize
    requires room { 23 ≤ length out.old }
    requires moment { IsMoment at }
    ensures end { result ≤ 23 }
    ensures text { take result out.new ≡ text_of_moment kind at }
{
    let (day, millis) = split_day(at);
    let date = put_day(out, day);
    match kind {
        Kind::DateTime => put_time_after(out, date, millis),
        _ => date,
    }
}

/// Puts `T` and the time of a millisecond of a day.
fn put_time_after(out: &mut [u8], at: usize, millis: u32) -> usize
    requires room { at + 13 ≤ length out.old }
    requires millis { millis < millis_of_day }
    ensures end { result ≡ at + 13 }
    ensures text { take result out.new ≡ take at out.old ++ 84 ∷ time_text millis }
{
    let time = put(out, at, b'T');
    put_time(out, time, millis)
}

/// The day of a moment, and its millisecond of that day.
fn split_day(at: i64) -> (u32, u32)
    requires { IsMoment at }
    ensures day { result.0 ≡ day_of at }
    ensures in_calendar { result.0 < days_of_calendar }
    ensures millis { result.1 ≡ unsigned_abs at % millis_of_day }
    ensures within { result.1 < millis_of_day }
{
    ((at / MILLIS_OF_DAY) as u32, (at % MILLIS_OF_DAY) as u32)
}
