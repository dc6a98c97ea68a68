//! The numbers of a workload.

ghost use Rattle.std.specs.Prelude.{◌≡◌, ◌<◌, ◌^◌};
ghost use Rattle.helix_workload.specs.Workload.{next, draws_of as draws_by_number};
ghost use Rattle.helix_workload.specs.Inner.{draws_in};

/// The generator's numbers are below this one.
const MODULUS: u64 = 2_147_483_648;

/// The numbers in the text of a profile.
#[derive(Clone, Copy, Debug)]
pub struct Draws {
    /// How many letters a text has.
    pub letters: u64,
    /// The first day.
    pub day: u64,
    /// How many days an end is after it.
    pub days: u64,
    /// The least member of the set.
    pub least: u64,
}

/// The numbers of the workload with a number.
pub fn draws_of(number: u64) -> Draws
    ensures { draws_in result ≡ draws_by_number number }
{
    let first = next(number % MODULUS);
    let second = next(first);
    let third = next(second);
    let fourth = next(third);
    Draws {
        letters: 1 + first / 65_536 % 4,
        day: 1 + second / 65_536 % 28,
        days: third / 65_536 % 30,
        least: fourth / 65_536 % 1_000,
    }
}

/// The generator's next number.
fn next(number: u64) -> u64
    requires { number < 2 ^ 31 }
    ensures value { result ≡ next number }
    ensures below { result < 2 ^ 31 }
{
    (number * 1_103_515_245 + 12_345) % MODULUS
}
