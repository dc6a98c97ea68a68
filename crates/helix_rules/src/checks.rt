//! The rules on fields and operands, as rules on constraints.

ghost use Rattle.helix_references.specs.Rules.{Breaks};
ghost use Rattle.helix_rules.specs.AloneLaws.{operand_alone, reference_alone};
ghost use Rattle.helix_rules.specs.Atoms.{BreaksAtom};

use crate::atom::atom_fault;
use helix_base::Memory;
use helix_constraints::ConstraintRule;
use helix_json::Json;
use helix_operands::OperandRule;
use helix_places::Place;
use helix_profile::Field;
use helix_references::{ReferenceRule, reference_fault};
use std::alloc::Global;

/// A rule on the fields that a constraint names, of these declared fields.
#[derive(Drop)]
pub struct ReferenceCheck<'a> {
    pub rule: ReferenceRule,
    pub fields: &'a [Field],
}

/// A rule on the operand of an atomic constraint.
#[derive(Drop)]
pub struct OperandCheck<'a> {
    pub rule: OperandRule,
    pub fields: &'a [Field],
}

impl<'a> ConstraintRule for ReferenceCheck<'a> {
    ghost breaks = { λ s. Breaks s.rule s.fields.now };

    fn fault(&self, alloc: Global, constraint: &Json) -> Result<Option<Place>, Memory> {
        reference_fault(alloc, self.rule, self.fields, constraint)
    }

    ghost own_first = { λ s. reference_alone s.rule s.fields.now };
}

impl<'a> ConstraintRule for OperandCheck<'a> {
    ghost breaks = { λ s. BreaksAtom s.rule s.fields.now };

    fn fault(&self, alloc: Global, constraint: &Json) -> Result<Option<Place>, Memory> {
        atom_fault(alloc, self.rule, self.fields, constraint)
    }

    ghost own_first = { λ s. operand_alone s.rule s.fields.now };
}
