//! Truth values, numbers and moments.

use crate::tests::ask::{has_when_added, values_of};
use crate::tests::build::{Check, Value};
use helix_values::Kind;
use std::test::Fail;

const NO: Value<'static> = Value::Flag(false);

const YES: Value<'static> = Value::Flag(true);

#[test]
fn truth_values(rt: HostRuntime) -> Result<(), Fail> {
    let only_no = [(Check::EqualTo(NO), true)];
    let not_yes = [(Check::EqualTo(YES), false)];
    assert_eq!(rt;
        values_of(rt.alloc(), Kind::Boolean, &only_no, &[NO])?,
        (1, true)
    );
    assert_eq!(rt;
        values_of(rt.alloc(), Kind::Boolean, &not_yes, &[NO])?,
        (1, true)
    );
    assert_eq!(rt;
        values_of(rt.alloc(), Kind::Boolean, &[], &[NO, YES])?,
        (2, true)
    );
    Ok(())
}

/// From 0 to 1.2.
const FROM_ZERO: [(Check<'static>, bool); 2] = [
    (Check::AtLeast(Value::Tenths(0)), true),
    (Check::AtMost(Value::Tenths(12)), true),
];

#[test]
fn numbers(rt: HostRuntime) -> Result<(), Fail> {
    let [least, most] = FROM_ZERO;
    let tenths = [1, 2, 3, 4, 5, 6, 7, 8, 9, 11, 12];
    let mut wanted = Vec::new(rt.alloc());
    for count in tenths {
        wanted.push(Value::Tenths(count))?;
    }
    let checks = [
        (Check::OnGrid(14), true),
        (Check::OnGrid(15), false),
        least,
        most,
    ];
    assert_eq!(rt;
        values_of(rt.alloc(), Kind::Decimal, &checks, wanted.as_slice())?,
        (11, true)
    );
    assert!(rt; has_when_added(rt.alloc(), Kind::Decimal, &checks, wanted.as_slice())?);
    Ok(())
}

/// The first and the last of the three members of a set, as it is written in the test below.
const LOW: Value<'static> = Value::Tenths(-10);

const HIGH: Value<'static> = Value::Tenths(20);

#[test]
fn whole_numbers(rt: HostRuntime) -> Result<(), Fail> {
    let members = [HIGH, LOW, Value::Tenths(10)];
    let above = [Value::Tenths(10), HIGH];
    let set = [(Check::InSet(&members), true), (Check::Above(LOW), true)];
    let apart = [
        (Check::InSet(&members), false),
        (Check::Below(LOW), false),
        (Check::Above(HIGH), false),
    ];
    assert_eq!(rt;
        values_of(rt.alloc(), Kind::Integer, &set, &above)?,
        (2, true)
    );
    assert_eq!(rt;
        values_of(rt.alloc(), Kind::Integer, &apart, &[Value::Tenths(0)])?,
        (1, true)
    );
    Ok(())
}

#[test]
fn moments(rt: HostRuntime) -> Result<(), Fail> {
    let days = [Value::Day(738_885), Value::Day(738_916)];
    let checks = [
        (Check::AtLeast(Value::Day(738_885)), true),
        (Check::AtLeast(Value::Day(738_945)), false),
        (Check::OnGrid(5), true),
    ];
    assert_eq!(rt;
        values_of(rt.alloc(), Kind::Date, &checks, &days)?,
        (2, true)
    );
    assert_eq!(rt;
        values_of(rt.alloc(), Kind::DateTime, &checks, &days)?,
        (2, true)
    );
    Ok(())
}
