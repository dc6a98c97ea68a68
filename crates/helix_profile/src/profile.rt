//! A profile.

ghost use Rattle.std.specs.Prelude.{◌≡◌, ◌≤◌, ◌<◌, ◌-◌, ◌⊎◌, ◌↔◌, Some, length, slice_get, IfOk, IfErr, OnOk, OnErr, IsErr};
ghost use Rattle.std.specs.List.{All};
ghost use Rattle.std.specs.List.Sorted.{IsStrictlyIncreasing};
ghost use Rattle.helix_profile.specs.Change.{kept, numbered, replaced, with_more};
ghost use Rattle.helix_profile.specs.Validity.{IsValidProfile};

use crate::constraint::{Constraint, Constraints};
use crate::field::{Field, Fields};
use helix_base::Memory;
use std::alloc::Global;
use std::marker::Model;

/// Fields in their declared order, and constraints on them, that together are valid:
/// `IsValidProfile` in `specs/Validity.antt` says what that is.
#[derive(Debug, Drop)]
pub struct Profile {
    fields: Fields,
    constraints: Constraints,
}

impl Model for Profile {
    ghost use Rattle.helix_profile.specs.Content.{Content};
    ghost use Rattle.helix_profile.specs.Validity.{IsValidProfile};

    ghost Value = { Content };

    ghost use Rattle.std.specs.Prelude.{List, refl};
    ghost use Rattle.std.specs.Coded.{code_by, coded×, coded_list};
    ghost use Rattle.helix_profile.specs.declared.constraint.Constraint.{Constraint};
    ghost use Rattle.helix_profile.specs.declared.field.Field.{Field};
    ghost use Rattle.helix_profile.specs.contracts.constraint.Constraint as constraint;
    ghost use Rattle.helix_profile.specs.contracts.field.Field as field;

    ghost coded = { code_by (List Field × List Constraint)
        (coded× (coded_list field.the_row.coded) (coded_list constraint.the_row.coded))
        (λ content. (content.fields, content.constraints))
        (λ parts. record { fields = parts.0; constraints = parts.1 })
        (λ _. refl) };

    ghost view = { λ profile. record { fields = profile.fields; constraints = profile.constraints } };

    ghost invariant = { λ profile.
        IsValidProfile (record { fields = profile.fields; constraints = profile.constraints }) };
}

/// Why [`Profile::replace_constraint`] refused: there are `count` constraints, and none has that
/// number. The given one comes back.
#[derive(Debug, Drop)]
pub struct NoSuchConstraint {
    pub given: Constraint,
    pub count: u32,
}

impl Profile {
    pub fn new(fields: Fields, constraints: Constraints) -> Profile
        requires { IsValidProfile (record { fields = fields; constraints = constraints }) }
        ensures { result ≡ record { fields = fields; constraints = constraints } }
    {
        Profile {
            fields,
            constraints,
        }
    }

    pub fn fields(&self) -> &[Field]
        ensures value { result.now ≡ self.now.fields }
        ensures valid { IsValidProfile self.now }
    {
        self.fields.as_slice()
    }

    pub fn constraints(&self) -> &[Constraint]
        ensures value { result.now ≡ self.now.constraints }
        ensures valid { IsValidProfile self.now }
    {
        self.constraints.as_slice()
    }

    /// Puts a constraint in the place of another one, which it hands back. Constraints are numbered
    /// from 1. It takes no memory.
    pub fn replace_constraint(
        &mut self,
        k: usize,
        with: Constraint,
    ) -> Result<Constraint, NoSuchConstraint>
        requires { 1 ≤ k → k ≤ length self.old.constraints → IsValidProfile (replaced self.old k with) }
        ensures ok { OnOk result (self.new ≡ replaced self.old k with) }
        ensures old { IfOk result (λ old. slice_get self.old.constraints (k - 1) ≡ Some old) }
        ensures refused { IsErr result ↔ ((k ≡ 0) ⊎ (length self.old.constraints < k)) }
        ensures unchanged { OnErr result (self.new ≡ self.old) }
        ensures given { IfErr result (λ none. (none.given ≡ with) × (none.count ≡ length self.old.constraints)) }
    {
        let count = self.constraints.as_slice().len();
        if k == 0 || count < k {
            return Err(NoSuchConstraint {
                given: with,
                count: count as u32,
            });
        }
        Ok(self.constraints.replace(k - 1, with))
    }

    /// Appends constraints. On `Err`, memory ran out, and the profile is unchanged.
    pub fn add(&mut self, more: Constraints) -> Result<(), Memory>
        requires { IsValidProfile (with_more self.old more) }
        ensures ok { OnOk result (self.new ≡ with_more self.old more) }
        ensures err { OnErr result (self.new ≡ self.old) }
    {
        self.constraints.append(more)
    }

    /// The profile with the constraints of these numbers alone, which are numbered from 1.
    pub fn keep(&self, numbers: &[u32]) -> Result<Profile, Memory>
        requires ascending { IsStrictlyIncreasing numbers.now }
        requires numbers { All (λ number. (1 ≤ number) × (number ≤ length self.now.constraints)) numbers.now }
        ensures { IfOk result (λ profile. profile ≡ kept self.now numbers.now) }
    {
        let alloc = self.constraints.allocator();
        let constraints = constraints_of(alloc, self.constraints.as_slice(), numbers)?;
        Ok(Profile::new(self.fields.copy(alloc)?, constraints))
    }
}

/// The constraints of these numbers, which are numbered from 1.
fn constraints_of(
    alloc: Global,
    constraints: &[Constraint],
    numbers: &[u32],
) -> Result<Constraints, Memory>
    requires { All (λ number. (1 ≤ number) × (number ≤ length constraints.now)) numbers.now }
    ensures { IfOk result (λ chosen. chosen ≡ numbered constraints.now numbers.now) }
{
    let mut chosen = Constraints::new(alloc);
    for number in numbers {
        chosen.push(constraints[*number as usize - 1].copy(alloc)?)?;
    }
    Ok(chosen)
}
