//! What the tests make of their steps.

use crate::profiles::build::{Check, Step, test};
use helix_base::Memory;
use helix_ladders::Offset;
use helix_profile::{Atom, Compare, Constraint, Constraints, Parts, Relation};
use sqlite_items::Boxed;
use std::alloc::Global;

/// The last constraint. Where a table has too few, one that every row satisfies.
fn last(alloc: Global, made: &mut Vec<Constraint>) -> Constraint {
    match made.pop() {
        Some(constraint) => constraint,
        None => Constraint::AllOf(Parts::new(alloc)),
    }
}

fn last_two(alloc: Global, made: &mut Vec<Constraint>) -> Result<Parts, Memory> {
    let second = last(alloc, made);
    let mut parts = Parts::new(alloc);
    parts.push(last(alloc, made))?;
    parts.push(second)?;
    Ok(parts)
}

fn atom(alloc: Global, field: u32, check: Check<'_>) -> Result<Constraint, Memory> {
    let test = test(alloc, check)?;
    Ok(Constraint::Atom(Atom { field, test }))
}

fn related(left: u32, compare: Compare, right: u32, units: i128) -> Constraint {
    Constraint::Related(Relation {
        left,
        compare,
        right,
        offset: Offset::Plain(units),
    })
}

fn conditional(
    alloc: Global,
    made: &mut Vec<Constraint>,
    otherwise: Option<Boxed<Constraint>>,
) -> Result<Constraint, Memory> {
    let then = last_boxed(alloc, made)?;
    let condition = last_boxed(alloc, made)?;
    Ok(Constraint::If(condition, then, otherwise))
}

fn last_boxed(alloc: Global, made: &mut Vec<Constraint>) -> Result<Boxed<Constraint>, Memory> {
    Ok(Boxed::new(alloc, last(alloc, made))?)
}

/// What a step makes of the last constraints.
fn joined(alloc: Global, made: &mut Vec<Constraint>, step: Step<'_>) -> Result<Constraint, Memory> {
    match step {
        Step::Not => Ok(Constraint::Not(last_boxed(alloc, made)?)),
        Step::AllOf => Ok(Constraint::AllOf(last_two(alloc, made)?)),
        Step::AnyOf => Ok(Constraint::AnyOf(last_two(alloc, made)?)),
        Step::IfElse => {
            let other = last_boxed(alloc, made)?;
            conditional(alloc, made, Some(other))
        }
        _ => conditional(alloc, made, None),
    }
}

fn made_by(
    alloc: Global,
    made: &mut Vec<Constraint>,
    step: Step<'_>,
) -> Result<Constraint, Memory> {
    match step {
        Step::Test(field, check) => atom(alloc, field, check),
        Step::Related(left, compare, right, units) => Ok(related(left, compare, right, units)),
        other => joined(alloc, made, other),
    }
}

fn made(alloc: Global, steps: &[Step<'_>]) -> Result<Vec<Constraint>, Memory> {
    let mut all = Vec::new(alloc);
    for step in steps {
        let constraint = made_by(alloc, &mut all, *step)?;
        all.push(constraint)?;
    }
    Ok(all)
}

/// The constraints that are left after all steps.
pub fn constraints(alloc: Global, steps: &[Step<'_>]) -> Result<Constraints, Memory> {
    let mut all = Constraints::new(alloc);
    for constraint in made(alloc, steps)? {
        all.push(constraint)?;
    }
    Ok(all)
}

/// The one constraint that is left after all steps.
pub fn constraint(alloc: Global, steps: &[Step<'_>]) -> Result<Constraint, Memory> {
    let mut all = made(alloc, steps)?;
    Ok(last(alloc, &mut all))
}
