use crate::profiles::build::{Check, Step, Value, fields, is_good};
use crate::profiles::steps::constraints;
use helix_base::Memory;
use helix_profile::{Compare, Constraints};
use helix_values::Kind;
use std::alloc::Global;
use std::process::Abort;
use std::test::Fail;

const REPEATED: [Value<'static>; 4] = [
    Value::Whole(3),
    Value::Whole(1),
    Value::Whole(2),
    Value::Whole(1),
];

pub const ONE_TO_THREE: [Value<'static>; 3] = [Value::Whole(1), Value::Whole(2), Value::Whole(3)];

/// 0, 1, 2, 3, 4 and null.
pub const NUMBERS: [Value<'static>; 6] = [
    Value::Whole(0),
    Value::Whole(1),
    Value::Whole(2),
    Value::Whole(3),
    Value::Whole(4),
    Value::Null,
];

/// Which of 0, 1, 2, 3, 4 and null these steps leave.
fn leave(
    rt: &impl Abort,
    alloc: Global,
    nullable: bool,
    steps: &[Step<'_>],
    wanted: [bool; 6],
) -> Result<(), Fail> {
    let fields = fields(alloc, &[("n", Kind::Integer, nullable)])?;
    let constraints = constraints(alloc, steps)?;
    for (value, want) in NUMBERS.iter().zip(wanted.iter()) {
        let good = is_good(alloc, &fields, &constraints, &[*value])?;
        assert_eq!(rt; good, *want, "{wanted:?}");
    }
    Ok(())
}

fn in_set<'a>(members: &'a [Value<'a>]) -> Step<'a> {
    Step::Test(0, Check::InSet(members))
}

fn is(number: i128) -> Step<'static> {
    Step::Test(0, Check::EqualTo(Value::Whole(number)))
}

fn bound(compare: Compare, number: i128) -> Step<'static> {
    Step::Test(0, Check::Bound(compare, Value::Whole(number)))
}

#[test]
fn sets_of_one_number(rt: HostRuntime) -> Result<(), Fail> {
    let listed = [false, true, true, true, false, false];
    leave(&rt, rt.alloc(), false, &[in_set(&REPEATED)], listed)?;
    let not_two = [in_set(&ONE_TO_THREE), is(2), Step::Not];
    leave(
        &rt,
        rt.alloc(),
        true,
        &not_two,
        [false, true, false, true, false, true],
    )
}

#[test]
fn bounds_of_one_number(rt: HostRuntime) -> Result<(), Fail> {
    let either = [
        in_set(&ONE_TO_THREE),
        bound(Compare::Above, 1),
        bound(Compare::Below, 3),
        Step::AnyOf,
    ];
    leave(
        &rt,
        rt.alloc(),
        true,
        &either,
        [false, true, true, true, false, true],
    )?;
    let not_above = [bound(Compare::Above, 2), Step::Not, in_set(&ONE_TO_THREE)];
    leave(
        &rt,
        rt.alloc(),
        true,
        &not_above,
        [false, true, true, false, false, true],
    )
}

#[test]
fn one_number_that_there_is_none_of(rt: HostRuntime) -> Result<(), Fail> {
    let some = Step::Test(0, Check::IsNull(false));
    leave(
        &rt,
        rt.alloc(),
        true,
        &[is(1), some, is(1), Step::Not],
        [false; 6],
    )
}

/// From 0 to 1.2, on tenths and not whole.
fn tenths(alloc: Global) -> Result<Constraints, Memory> {
    let steps = [
        bound(Compare::AtLeast, 0),
        Step::Test(0, Check::Bound(Compare::AtMost, Value::Hundredths(120))),
        Step::Test(0, Check::OnGrid(14)),
        Step::Test(0, Check::OnGrid(15)),
        Step::Not,
    ];
    constraints(alloc, &steps)
}

#[test]
fn tenths_that_are_no_whole_numbers(rt: HostRuntime) -> Result<(), Fail> {
    let fields = fields(rt.alloc(), &[("d", Kind::Decimal, false)])?;
    let constraints = tenths(rt.alloc())?;
    let wanted = [10, 20, 30, 40, 50, 60, 70, 80, 90, 110, 120];
    for step in 0..147_u8 {
        let count = i128::from(step) - 11;
        let values = [Value::Hundredths(count)];
        let good = is_good(rt.alloc(), &fields, &constraints, &values)?;
        assert_eq!(rt; good, wanted.contains(&count), "{count} hundredths");
    }
    Ok(())
}

fn is_true(field: u32) -> Step<'static> {
    Step::Test(field, Check::EqualTo(Value::Flag(true)))
}

/// Whether two truth values are good where the second follows from the first, or where that is negated.
fn follows(alloc: Global, values: [Value<'_>; 2], negated: bool) -> Result<bool, Memory> {
    let fields = fields(
        alloc,
        &[("a", Kind::Boolean, true), ("b", Kind::Boolean, false)],
    )?;
    let rule = [is_true(0), is_true(1), Step::If, Step::Not];
    let constraints = if negated {
        constraints(alloc, &rule)?
    } else {
        constraints(alloc, &rule[..3])?
    };
    is_good(alloc, &fields, &constraints, &values)
}

/// Two truth values, and whether they are good with the condition, and with its negation.
fn truth_values() -> [([Value<'static>; 2], bool, bool); 8] {
    let (no, yes) = (Value::Flag(false), Value::Flag(true));
    [
        ([no, no], true, false),
        ([no, yes], true, false),
        ([yes, no], false, true),
        ([yes, yes], true, false),
        ([Value::Null, no], true, true),
        ([Value::Null, yes], true, false),
        ([yes, Value::Null], false, false),
        ([Value::Null, Value::Null], false, false),
    ]
}

#[test]
fn a_condition_on_two_truth_values(rt: HostRuntime) -> Result<(), Fail> {
    for (values, plus, minus) in truth_values() {
        assert_eq!(rt;
            follows(rt.alloc(), values, false)?,
            plus,
            "{plus} and {minus}"
        );
        assert_eq!(rt;
            follows(rt.alloc(), values, true)?,
            minus,
            "{plus} and {minus}, negated"
        );
    }
    Ok(())
}
