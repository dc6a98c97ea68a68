use crate::profiles::build::{Check, DAY, FIRST_OF_MARCH, Step, Value, fields, is_good};
use crate::profiles::steps::constraints;
use crate::profiles::worked_rows::{NUMBERS, ONE_TO_THREE};
use helix_base::{Alphabet, Memory};
use helix_profile::{Compare, Constraints};
use helix_values::Kind;
use std::alloc::Global;
use std::process::Abort;
use std::test::Fail;

/// Which of 0, 1, 2, 3, 4 and null are good beside each of them.
type Good = [[bool; 6]; 6];

/// The rows of two numbers that these steps leave.
fn leave(
    rt: &impl Abort,
    alloc: Global,
    nullable: bool,
    steps: &[Step<'_>],
    wanted: &Good,
) -> Result<(), Fail> {
    let all = [
        ("x", Kind::Integer, nullable),
        ("y", Kind::Integer, nullable),
    ];
    let fields = fields(alloc, &all)?;
    let constraints = constraints(alloc, steps)?;
    for (x, wants) in NUMBERS.iter().zip(wanted.iter()) {
        for (y, want) in NUMBERS.iter().zip(wants.iter()) {
            let good = is_good(alloc, &fields, &constraints, &[*x, *y])?;
            assert_eq!(rt; good, *want, "{wants:?}");
        }
    }
    Ok(())
}

fn one_to_three(field: u32) -> Step<'static> {
    Step::Test(field, Check::InSet(&ONE_TO_THREE))
}

#[test]
fn a_number_above_another_and_one(rt: HostRuntime) -> Result<(), Fail> {
    let steps = [
        one_to_three(0),
        one_to_three(1),
        Step::Related(1, Compare::Above, 0, 1_000_000_000_000_000),
    ];
    let good = [
        [false; 6],
        [false, false, false, true, false, true],
        [false, false, false, false, false, true],
        [false, false, false, false, false, true],
        [false; 6],
        [false, true, true, true, false, true],
    ];
    leave(&rt, rt.alloc(), true, &steps, &good)
}

#[test]
fn a_number_above_another_by_less_than_two(rt: HostRuntime) -> Result<(), Fail> {
    let steps = [
        one_to_three(0),
        one_to_three(1),
        Step::Related(0, Compare::Above, 1, 0),
        Step::Related(0, Compare::Below, 1, 2_000_000_000_000_000),
    ];
    let good = [
        [false; 6],
        [false; 6],
        [false, true, false, false, false, false],
        [false, false, true, false, false, false],
        [false; 6],
        [false; 6],
    ];
    leave(&rt, rt.alloc(), false, &steps, &good)
}

/// Both texts are `a` or `b`, and they differ.
fn different(alloc: Global) -> Result<Constraints, Memory> {
    let set = [Value::Text("a"), Value::Text("b")];
    let steps = [
        Step::Test(0, Check::InSet(&set)),
        Step::Test(1, Check::InSet(&set)),
        Step::Related(0, Compare::Equal, 1, 0),
        Step::Not,
    ];
    constraints(alloc, &steps)
}

fn pairs_of_texts() -> [(&'static str, &'static str, bool); 9] {
    [
        ("a", "a", false),
        ("a", "b", true),
        ("a", "", false),
        ("b", "a", true),
        ("b", "b", false),
        ("b", "", false),
        ("ab", "a", false),
        ("ab", "b", false),
        ("ab", "", false),
    ]
}

#[test]
fn texts_that_differ(rt: HostRuntime) -> Result<(), Fail> {
    let string = Kind::Text(Alphabet::Basic);
    let fields = fields(rt.alloc(), &[("x", string, false), ("y", string, false)])?;
    let constraints = different(rt.alloc())?;
    for (x, y, want) in pairs_of_texts() {
        let values = [Value::Text(x), Value::Text(y)];
        let good = is_good(rt.alloc(), &fields, &constraints, &values)?;
        assert_eq!(rt; good, want, "{x} and {y}");
    }
    Ok(())
}

/// The second day is the one after the first, the third the one before the second, 2024-03-01, and then the second
/// may have to be on the grid of months.
fn to_and_fro(alloc: Global, on_months: bool) -> Result<Constraints, Memory> {
    let forth = Step::Related(1, Compare::Equal, 0, DAY as i128);
    let back = Step::Related(2, Compare::Equal, 1, -(DAY as i128));
    let march = Step::Test(2, Check::EqualTo(Value::Day(FIRST_OF_MARCH)));
    let months = Step::Test(1, Check::OnGrid(5));
    let steps = [forth, back, march, months];
    if on_months {
        constraints(alloc, &steps)
    } else {
        constraints(alloc, &steps[..3])
    }
}

/// Whether three days, counted from 2024-03-01, are good.
fn are_good(alloc: Global, days: [i64; 3], on_months: bool) -> Result<bool, Memory> {
    let all = [
        ("a", Kind::Date, false),
        ("b", Kind::Date, false),
        ("c", Kind::Date, false),
    ];
    let fields = fields(alloc, &all)?;
    let constraints = to_and_fro(alloc, on_months)?;
    let values = days.map(|day| Value::Day(FIRST_OF_MARCH.wrapping_add(day)));
    is_good(alloc, &fields, &constraints, &values)
}

#[test]
fn days_that_lead_to_and_fro(rt: HostRuntime) -> Result<(), Fail> {
    let cases = [
        ([0, 1, 0], true),
        ([0, 0, 0], false),
        ([0, -1, 0], false),
        ([-1, 0, -1], false),
        ([1, 2, 1], false),
        ([0, 1, 2], false),
    ];
    for (days, want) in cases {
        assert_eq!(rt; are_good(rt.alloc(), days, false)?, want, "{days:?}");
        assert!(rt; !are_good(rt.alloc(), days, true)?, "{days:?} on months");
    }
    Ok(())
}
