//! The fields that a constraint names.

ghost use Rattle.std.specs.Prelude.{◌≡◌, ◌++◌, IfOk, OnOk};
ghost use Rattle.helix_profile.specs.Fields.{fields_of};
ghost use Rattle.helix_partition.specs.Inner.Labels.{fields_of_all};

use helix_base::{Memory, Numbers32};
use helix_profile::Constraint;
use std::alloc::Global;

/// The fields that a constraint names, as often as it does.
pub fn named_fields(alloc: Global, constraint: &Constraint) -> Result<Numbers32, Memory>
    ensures { IfOk result (λ fields. fields ≡ fields_of constraint.now) }
{
    let mut fields = Numbers32::new(alloc);
    push_named(&mut fields, constraint)?;
    Ok(fields)
}

#[cycle(named)]
fn push_named(fields: &mut Numbers32, constraint: &Constraint) -> Result<(), Memory>
    ensures { OnOk result (fields.new ≡ fields.old ++ fields_of constraint.now) }
{
    match constraint {
        Constraint::Atom(atom) => fields.push(atom.field),
        Constraint::Related(relation) => {
            fields.push(relation.left)?;
            fields.push(relation.right)
        }
        Constraint::Not(negated) => push_named(fields, negated.get()),
        Constraint::AllOf(parts) => push_all_named(fields, parts.as_slice()),
        Constraint::AnyOf(parts) => push_all_named(fields, parts.as_slice()),
        Constraint::If(condition, then, otherwise) => {
            push_named(fields, condition.get())?;
            push_named(fields, then.get())?;
            match otherwise {
                None => Ok(()),
                Some(other) => push_named(fields, other.get()),
            }
        }
    }
}

#[cycle(named)]
fn push_all_named(fields: &mut Numbers32, constraints: &[Constraint]) -> Result<(), Memory>
    ensures { OnOk result (fields.new ≡ fields.old ++ fields_of_all constraints.now) }
{
    for constraint in constraints {
        push_named(fields, constraint)?;
    }
    Ok(())
}
