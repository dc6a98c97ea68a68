//! Offsets between two values.

/// How far a value is shifted. `specs/Shift.antt` says where a shifted value lies.
#[derive(Clone, Copy, Debug, PartialEq, Eq)]
pub enum Offset {
    /// Units of a number, or milliseconds of a moment.
    Plain(i128),
    /// Months: the day of the same number, or the last one of a shorter month.
    Months(i64),
    /// Years, each of twelve months.
    Years(i64),
    /// Working days, from Monday to Friday.
    WorkingDays(i64),
}
