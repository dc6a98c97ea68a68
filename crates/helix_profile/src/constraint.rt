//! Constraints.

ghost use Rattle.std.specs.Prelude.{◌≡◌, IfOk};

use crate::relation::Relation;
use crate::test::Atom;
use helix_base::{List, Memory, TryCopy};
use sqlite_items::{Boxed, Items};
use std::alloc::Global;

/// A constraint on a row: `Satisfies` in `specs/Satisfaction.antt` says what it means.
#[derive(Debug, Drop)]
pub enum Constraint {
    /// A test of one field.
    Atom(Atom),
    /// A comparison of two fields.
    Related(Relation),
    Not(Boxed<Constraint>),
    AllOf(Parts),
    AnyOf(Parts),
    /// If, then and, where it is given, else.
    If(Boxed<Constraint>, Boxed<Constraint>, Option<Boxed<Constraint>>),
}

/// The parts of a constraint, in their order.
pub type Parts = Items<Constraint>;

/// The constraints of a profile, in their order.
pub type Constraints = List<Constraint>;

impl Constraint {
    #[cycle(copy)]
    pub fn copy(&self, alloc: Global) -> Result<Constraint, Memory>
        ensures { IfOk result (λ copy. copy ≡ self.now) }
    {
        match self {
            Constraint::Atom(atom) => Ok(Constraint::Atom(atom.copy(alloc)?)),
            Constraint::Related(relation) => Ok(Constraint::Related(*relation)),
            Constraint::Not(negated) => Ok(Constraint::Not(copy_boxed(alloc, negated)?)),
            Constraint::AllOf(parts) => {
                Ok(Constraint::AllOf(copy_parts(alloc, parts.as_slice())?))
            }
            Constraint::AnyOf(parts) => {
                Ok(Constraint::AnyOf(copy_parts(alloc, parts.as_slice())?))
            }
            Constraint::If(condition, then, otherwise) => {
                let condition = copy_boxed(alloc, condition)?;
                let then = copy_boxed(alloc, then)?;
                match otherwise {
                    None => Ok(Constraint::If(condition, then, None)),
                    Some(other) => {
                        Ok(Constraint::If(condition, then, Some(copy_boxed(alloc, other)?)))
                    }
                }
            }
        }
    }
}

#[cycle(copy)]
fn copy_boxed(alloc: Global, constraint: &Boxed<Constraint>) -> Result<Boxed<Constraint>, Memory>
    ensures { IfOk result (λ copy. copy ≡ constraint.now) }
{
    Ok(Boxed::new(alloc, constraint.get().copy(alloc)?)?)
}

#[cycle(copy)]
fn copy_parts(alloc: Global, constraints: &[Constraint]) -> Result<Parts, Memory>
    ensures { IfOk result (λ copy. copy ≡ constraints.now) }
{
    let mut all = Parts::new(alloc);
    for constraint in constraints {
        all.push(constraint.copy(alloc)?)?;
    }
    Ok(all)
}

impl TryCopy for Constraint {
    fn try_copy(&self, alloc: Global) -> Result<Constraint, Memory> {
        self.copy(alloc)
    }
}
