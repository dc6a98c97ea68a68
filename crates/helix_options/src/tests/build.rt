//! Constraints by the steps that make them, as a table can hold them.

use helix_base::Memory;
use helix_profile::{Atom, Compare, Constraint, Parts, Relation, Test};
use helix_values::{Cell, Offset};
use sqlite_items::Boxed;
use std::alloc::Global;

/// A step that makes a constraint, of those that the steps before it made.
#[derive(Clone, Copy, Debug)]
pub enum Step {
    /// The field is null, or isn't.
    Null(u32, bool),
    /// The field is equal to the number.
    Equal(u32, u8),
    /// The first field is below the second.
    Less(u32, u32),
    Not,
    /// Of the last two.
    AllOf,
    AnyOf,
    /// Of the last two, condition and then; or of the last three, with an else.
    If,
    IfElse,
}

/// The constraints that are left by the steps.
pub fn constraints(alloc: Global, steps: &[Step]) -> Result<Vec<Constraint>, Memory> {
    let mut made = Vec::new(alloc);
    for step in steps {
        let constraint = made_by(alloc, &mut made, *step)?;
        made.push(constraint)?;
    }
    Ok(made)
}

/// The last constraint. Where a table has too few, one that every row satisfies.
fn last(alloc: Global, made: &mut Vec<Constraint>) -> Constraint {
    match made.pop() {
        Some(constraint) => constraint,
        None => Constraint::AllOf(Parts::new(alloc)),
    }
}

fn last_two(alloc: Global, made: &mut Vec<Constraint>) -> Result<Parts, Memory> {
    let second = last(alloc, made);
    let mut parts = Parts::new(alloc);
    parts.push(last(alloc, made))?;
    parts.push(second)?;
    Ok(parts)
}

fn conditional(
    alloc: Global,
    made: &mut Vec<Constraint>,
    otherwise: Option<Boxed<Constraint>>,
) -> Result<Constraint, Memory> {
    let then = Boxed::new(alloc, last(alloc, made))?;
    let condition = Boxed::new(alloc, last(alloc, made))?;
    Ok(Constraint::If(condition, then, otherwise))
}

fn atom(field: u32, test: Test) -> Constraint {
    Constraint::Atom(Atom { field, test })
}

fn made_by(alloc: Global, made: &mut Vec<Constraint>, step: Step) -> Result<Constraint, Memory> {
    match step {
        Step::Null(field, wanted) => Ok(atom(field, Test::IsNull(wanted))),
        Step::Equal(field, number) => Ok(atom(
            field,
            Test::EqualTo(Cell::Number(i128::from(number))),
        )),
        Step::Less(left, right) => Ok(Constraint::Related(Relation {
            left,
            compare: Compare::Below,
            right,
            offset: Offset::Plain(0),
        })),
        Step::Not => Ok(Constraint::Not(Boxed::new(alloc, last(alloc, made))?)),
        Step::AllOf => Ok(Constraint::AllOf(last_two(alloc, made)?)),
        Step::AnyOf => Ok(Constraint::AnyOf(last_two(alloc, made)?)),
        Step::If => conditional(alloc, made, None),
        Step::IfElse => {
            let other = Boxed::new(alloc, last(alloc, made))?;
            conditional(alloc, made, Some(other))
        }
    }
}
