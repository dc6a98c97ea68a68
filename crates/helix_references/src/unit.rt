//! The units of offsets between moments.

ghost use Rattle.std.specs.Prelude.{◌≡◌, ◌≤◌, ◌*◌, ◌<◌};
ghost use Rattle.helix_references.specs.Units.{allowed, greatest, is_calendar, size, unit_in, unit_named, unit_word};

use helix_json::Json;
use helix_places::is_word;
use helix_values::Kind;

/// A unit of the offset between two moments.
#[derive(Clone, Copy, Debug, PartialEq, Eq)]
pub enum MomentUnit {
    Millis,
    Seconds,
    Minutes,
    Hours,
    Days,
    Months,
    Years,
    WorkingDays,
}

/// The table of units: the variant, the word, the milliseconds of a unit of time, the greatest offset.
macro_rules! each_unit {
    ($rows:ident) => {
        $rows! {
            Millis "millis" 1 MOST_MILLIS false,
            Seconds "seconds" 1_000 MOST_MILLIS false,
            Minutes "minutes" 60_000 MOST_MILLIS false,
            Hours "hours" 3_600_000 MOST_MILLIS false,
            Days "days" 86_400_000 MOST_MILLIS false,
            Months "months" 1 119_988 true,
            Years "years" 1 9_999 true,
            WorkingDays "workingDays" 1 3_652_059 true,
        }
    };
}

/// The milliseconds from the first moment to the last one.
const MOST_MILLIS: u128 = 315_537_897_599_999;

macro_rules! units {
    ($($unit:ident $word:literal $size:literal $greatest:tt $calendar:literal,)*) => {
        [$(MomentUnit::$unit),*]
    };
}

/// All units.
const UNITS: [MomentUnit; 8] = each_unit!(units);

impl MomentUnit {
    #[tactic(auto, unfolding(crate::specs::Units::unit_word))]
    fn word(self) -> &'static str
        ensures { result.now ≡ unit_word self }
    {
        macro_rules! words {
            ($($unit:ident $word:literal $size:literal $greatest:tt $calendar:literal,)*) => {
                match self {
                    $(MomentUnit::$unit => $word,)*
                }
            };
        }
        each_unit!(words)
    }

    /// The milliseconds of a unit of time; a unit of the calendar is counted.
    pub fn size(self) -> u128
        ensures value { result ≡ size self }
        ensures small { result ≤ 86400000 }
    {
        macro_rules! sizes {
            ($($unit:ident $word:literal $size:literal $greatest:tt $calendar:literal,)*) => {
                match self {
                    $(MomentUnit::$unit => $size,)*
                }
            };
        }
        each_unit!(sizes)
    }

    /// The greatest offset, in milliseconds or counted.
    pub fn greatest(self) -> u128
        ensures { result ≡ greatest self }
    {
        macro_rules! ends {
            ($($unit:ident $word:literal $size:literal $greatest:tt $calendar:literal,)*) => {
                match self {
                    $(MomentUnit::$unit => $greatest,)*
                }
            };
        }
        each_unit!(ends)
    }

    /// Whether the unit is one of the calendar, by which a date is shifted.
    fn is_calendar(self) -> bool
        ensures { result ≡ is_calendar self }
    {
        macro_rules! classes {
            ($($unit:ident $word:literal $size:literal $greatest:tt $calendar:literal,)*) => {
                match self {
                    $(MomentUnit::$unit => $calendar,)*
                }
            };
        }
        each_unit!(classes)
    }
}

/// The unit with a word.
#[tactic(auto, unfolding(crate::specs::Units::unit_named))]
fn unit_named(word: &[u32]) -> Option<MomentUnit>
    ensures { result ≡ unit_named word.now }
{
    for unit in &UNITS {
        if is_word(word, unit.word()) {
            return Some(*unit);
        }
    }
    None
}

/// The unit that a value names, where the field named by the operand has a kind.
pub fn unit_in(right: Option<Kind>, value: &Json) -> Option<MomentUnit>
    ensures { result ≡ unit_in right value.now }
{
    match value {
        Json::Str(word) => allowed(right, unit_named(word.codes())),
        _ => None,
    }
}

fn allowed(right: Option<Kind>, unit: Option<MomentUnit>) -> Option<MomentUnit>
    ensures { result ≡ allowed right unit }
{
    let Some(unit) = unit else {
        return None;
    };
    if unit.is_calendar() && !matches!(right, Some(Kind::Date)) {
        return None;
    }
    Some(unit)
}
