//! Marks, the slot where there is no answer, one atom more, and what is counted.

ghost use Rattle.std.specs.Prelude.{◌≡◌};
ghost use Rattle.helix_values.specs.declared.kind.Kind.TheVariants as kinds;

use crate::Domain;
use crate::tests::ask::domain_of;
use crate::tests::build::{Check, Value};
use helix_base::{Alphabet, Memory, Quiet, Steps, Unit};
use helix_values::{CellRef, Kind, Mark, Slot};
use std::alloc::Global;
use std::test::Fail;

/// The units of one.
const ONE: i128 = 1_000_000_000_000_000;

/// The least whole number of a domain from a mark on, if any, and what is counted.
fn least(domain: &Domain, after: bool, bound: i128) -> (Option<i128>, u64, u64)
    requires { domain.now.field.kind ≡ kinds.Integer }
{
    let mut slot = Slot::new();
    let mut steps = Steps::new(Quiet);
    let cell = CellRef::Number(bound);
    let mark = if after {
        Mark::After(cell)
    } else {
        Mark::At(cell)
    };
    domain.at_or_after(mark, &mut slot, &mut steps);
    let answer = match slot.view() {
        CellRef::Number(units) => Some(units),
        _ => None,
    };
    (answer, steps.count(Unit::Domain), steps.count(Unit::Move))
}

#[test]
fn numbers_from_marks_on(rt: HostRuntime) -> Result<(), Fail> {
    let checks = [
        (Check::AtLeast(Value::Tenths(0)), true),
        (Check::AtMost(Value::Tenths(20)), true),
    ];
    let cases = [
        (false, -5, Some(0)),
        (false, 1, Some(ONE)),
        (false, ONE, Some(ONE)),
        (true, ONE, Some(2 * ONE)),
        (false, i128::MIN, Some(0)),
        (true, 2 * ONE, None),
        (true, i128::MAX, None),
    ];
    let Some(domain) = domain_of(rt.alloc(), Kind::Integer, &checks)? else {
        assert!(rt; false, "the atoms are for the kind");
        return Ok(());
    };
    for (after, bound, want) in cases {
        assert_eq!(rt; least(&domain, after, bound), (want, 1, 0));
    }
    Ok(())
}

/// The moves of a domain's first question and of two, and whether there are two values and two questions are counted.
fn moves(alloc: Global, domain: &Domain) -> Result<(u64, u64, bool), Memory> {
    let mut slot = Slot::new();
    let mut near = domain.near(alloc)?;
    let mut steps = Steps::new(Quiet);
    if !domain.first(&mut slot, &mut near, &mut steps) {
        return Ok((0, 0, false));
    }
    let first = steps.count(Unit::Move);
    let found = domain.next(&mut slot, &mut near, &mut steps);
    Ok((
        first,
        steps.count(Unit::Move),
        found && steps.count(Unit::Domain) == 2,
    ))
}

/// Two questions to `(a|b)*a(a|b){10}` without the word of eleven `a` make at most 386,386 moves each.
#[test]
fn moves_of_words(rt: HostRuntime) -> Result<(), Fail> {
    let pieces = [
        ('a', 'b', 0, None),
        ('a', 'a', 1, Some(1)),
        ('a', 'b', 10, Some(10)),
    ];
    let checks = [
        (Check::Matching(&pieces), true),
        (Check::EqualTo(Value::Times('a', 11)), false),
    ];
    let Some(domain) = domain_of(rt.alloc(), Kind::Text(Alphabet::Basic), &checks)? else {
        assert!(rt; false, "the atoms are for the kind");
        return Ok(());
    };
    let (first, both, two) = moves(rt.alloc(), &domain)?;
    assert!(rt; first > 0 && first <= 386_386 && both <= 772_772 && two);
    Ok(())
}
