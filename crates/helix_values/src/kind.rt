//! The kinds of fields.

ghost use Rattle.std.specs.Prelude.{◌≡◌};
ghost use Rattle.helix_values.specs.OwnLevel.{own_level};

use helix_base::Alphabet;

/// What values a field has.
#[derive(Clone, Copy, Debug, PartialEq, Eq)]
pub enum Kind {
    /// False and true.
    Boolean,
    /// Whole numbers from -10^20 to 10^20.
    Integer,
    /// Numbers from -10^20 to 10^20 with at most 15 places.
    Decimal,
    /// Texts of at most 1,000 characters of an alphabet.
    Text(Alphabet),
    /// The days of the years 1 to 9999.
    Date,
    /// The milliseconds of the years 1 to 9999.
    DateTime,
    /// The valid words of a code.
    Code(Code),
}

impl Kind {
    /// The level of its ladder that a kind of numbers or moments has by itself.
    pub fn own_level(self) -> Option<u32>
        ensures { result ≡ own_level self }
    {
        match self {
            Kind::Integer => Some(15),
            Kind::Decimal | Kind::DateTime => Some(0),
            Kind::Date => Some(4),
            _ => None,
        }
    }
}

/// A code of the securities business, whose words have a check digit.
#[derive(Clone, Copy, Debug, PartialEq, Eq)]
pub enum Code {
    /// International Securities Identification Number, ISO 6166.
    Isin,
    /// Stock Exchange Daily Official List number.
    Sedol,
    /// Committee on Uniform Securities Identification Procedures number, ANSI X9.6.
    Cusip,
}
