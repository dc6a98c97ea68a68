use crate::profiles::build::{Check, FIRST_OF_MARCH, Step, Value, signs};
use crate::profiles::steps::constraint;
use helix_base::Memory;
use helix_profile::Compare;
use std::alloc::Global;
use std::process::Abort;
use std::test::Fail;

/// The row 2, `ab`, 2024-03-01, 3.
const VALUES: [Value<'static>; 4] = [
    Value::Whole(2),
    Value::Text("ab"),
    Value::Day(FIRST_OF_MARCH),
    Value::Whole(3),
];

/// What steps make of that row and of one of nulls, with both signs.
fn answers(alloc: Global, steps: &[Step<'_>]) -> Result<((bool, bool), (bool, bool)), Memory> {
    let constraint = constraint(alloc, steps)?;
    let at_values = signs(alloc, &constraint, &VALUES)?;
    let at_nulls = signs(alloc, &constraint, &[Value::Null; 4])?;
    Ok((at_values, at_nulls))
}

/// What a constraint and its negation say.
type Signs = (bool, bool);

/// Each test, on the row without a null and on that of nulls, with plus and with minus.
fn plain_tests() -> [(&'static str, u32, Check<'static>, Signs, Signs); 8] {
    let two = Value::Whole(2);
    let three = Value::Whole(3);
    [
        ("null", 0, Check::IsNull(true), (false, true), (true, false)),
        (
            "some",
            0,
            Check::IsNull(false),
            (true, false),
            (false, true),
        ),
        ("equal", 0, Check::EqualTo(two), (true, false), (true, true)),
        (
            "above",
            0,
            Check::Bound(Compare::Above, two),
            (false, true),
            (true, true),
        ),
        (
            "at least",
            0,
            Check::Bound(Compare::AtLeast, two),
            (true, false),
            (true, true),
        ),
        (
            "below",
            0,
            Check::Bound(Compare::Below, three),
            (true, false),
            (true, true),
        ),
        (
            "at most",
            3,
            Check::Bound(Compare::AtMost, two),
            (false, true),
            (true, true),
        ),
        (
            "on months",
            2,
            Check::OnGrid(5),
            (true, false),
            (true, true),
        ),
    ]
}

/// The same of sets and of texts.
fn tests_of_members() -> [(&'static str, u32, Check<'static>, Signs, Signs); 5] {
    [
        (
            "in a set",
            0,
            Check::InSet(&[Value::Whole(1)]),
            (false, true),
            (true, true),
        ),
        (
            "begins",
            1,
            Check::BeginningWith("b"),
            (false, true),
            (true, true),
        ),
        ("length", 1, Check::OfLength(2), (true, false), (true, true)),
        (
            "longer",
            1,
            Check::LongerThan(2),
            (false, true),
            (true, true),
        ),
        (
            "shorter",
            1,
            Check::ShorterThan(3),
            (true, false),
            (true, true),
        ),
    ]
}

#[test]
fn null_satisfies_a_plain_test_and_its_negation(rt: HostRuntime) -> Result<(), Fail> {
    for (name, field, check, at_values, at_nulls) in plain_tests() {
        let signs = answers(rt.alloc(), &[Step::Test(field, check)])?;
        assert_eq!(rt; signs, (at_values, at_nulls), "{name}");
    }
    Ok(())
}

#[test]
fn null_satisfies_tests_of_members_and_texts(rt: HostRuntime) -> Result<(), Fail> {
    for (name, field, check, at_values, at_nulls) in tests_of_members() {
        let signs = answers(rt.alloc(), &[Step::Test(field, check)])?;
        assert_eq!(rt; signs, (at_values, at_nulls), "{name}");
    }
    Ok(())
}

/// Whether the first number is null, is 2, is 1, and is below the second one.
fn null() -> Step<'static> {
    Step::Test(0, Check::IsNull(true))
}

fn two() -> Step<'static> {
    Step::Test(0, Check::EqualTo(Value::Whole(2)))
}

fn one() -> Step<'static> {
    Step::Test(0, Check::InSet(&[Value::Whole(1)]))
}

fn below() -> Step<'static> {
    Step::Related(0, Compare::Below, 3, 0)
}

/// Up to four steps that make one constraint say this, on the row without a null and on that of nulls.
fn says(
    rt: &impl Abort,
    alloc: Global,
    steps: &[Step<'_>],
    at_values: Signs,
    at_nulls: Signs,
) -> Result<(), Fail> {
    let signs = answers(alloc, steps)?;
    assert_eq!(rt; signs, (at_values, at_nulls), "{} steps", steps.len());
    Ok(())
}

#[test]
fn null_satisfies_a_pattern_and_its_negation(rt: HostRuntime) -> Result<(), Fail> {
    let check = Check::Matching("a", &[(&[('b', 'b')], 1, None)]);
    says(
        &rt,
        rt.alloc(),
        &[Step::Test(1, check)],
        (true, false),
        (true, true),
    )
}

#[test]
fn negations_and_lists_at_null(rt: HostRuntime) -> Result<(), Fail> {
    let alloc = rt.alloc();
    says(&rt, alloc, &[below()], (true, false), (true, true))?;
    says(&rt, alloc, &[two(), Step::Not], (false, true), (true, true))?;
    says(
        &rt,
        alloc,
        &[two(), one(), Step::AllOf],
        (false, true),
        (true, true),
    )?;
    says(
        &rt,
        alloc,
        &[two(), one(), Step::AnyOf],
        (true, false),
        (true, true),
    )
}

#[test]
fn conditions_at_null(rt: HostRuntime) -> Result<(), Fail> {
    let alloc = rt.alloc();
    says(
        &rt,
        alloc,
        &[null(), two(), Step::If],
        (true, false),
        (true, true),
    )?;
    says(
        &rt,
        alloc,
        &[two(), one(), Step::If],
        (false, true),
        (true, true),
    )?;
    says(
        &rt,
        alloc,
        &[null(), two(), one(), Step::IfElse],
        (false, true),
        (true, true),
    )
}

#[test]
fn null_at_either_end_satisfies_a_relation_and_its_negation(rt: HostRuntime) -> Result<(), Fail> {
    let relation = constraint(rt.alloc(), &[Step::Related(0, Compare::Below, 1, 0)])?;
    let (two, three) = (Value::Whole(2), Value::Whole(3));
    for ends in [
        [Value::Null, three],
        [two, Value::Null],
        [Value::Null, Value::Null],
    ] {
        let signs = signs(rt.alloc(), &relation, &ends)?;
        assert_eq!(rt; signs, (true, true), "a null at an end");
    }
    Ok(())
}
