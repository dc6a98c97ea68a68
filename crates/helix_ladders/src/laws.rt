//! Laws over the definitions alone: each is the contract of a function that does nothing.

ghost use Rattle.std.specs.Prelude.{ℕ, ◌≡◌, ◌<◌};
ghost use Rattle.helix_ladders.specs.Calendar.{IsDate, day_number, year_of, month_of, day_of_month, year_start, days_of_calendar};

/// A date is found again from the number of its day, which is one of the calendar's.
pub fn dates_have_day_numbers()
    ensures year { (y m d : ℕ) → IsDate y m d → year_of (day_number y m d) ≡ y }
    ensures month { (y m d : ℕ) → IsDate y m d → month_of (day_number y m d) ≡ m }
    ensures day { (y m d : ℕ) → IsDate y m d → day_of_month (day_number y m d) ≡ d }
    ensures within { (y m d : ℕ) → IsDate y m d → day_number y m d < days_of_calendar }
    ensures end { year_start 10000 ≡ days_of_calendar }
{}
