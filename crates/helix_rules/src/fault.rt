//! The first place where a rule is broken.

ghost use Rattle.std.specs.Prelude.{IfOk};
ghost use Rattle.helix_constraints.specs.Visited.{InConstraints};
ghost use Rattle.helix_json.specs.Values.{HasNoRepeatedKey};
ghost use Rattle.helix_places.specs.Places.{Finds};
ghost use Rattle.helix_references.specs.Rules.{Breaks};
ghost use Rattle.helix_rules.specs.Atoms.{BreaksAtom};
ghost use Rattle.helix_rules.specs.Broken.{Broken};

use crate::checks::{OperandCheck, ReferenceCheck};
use crate::cycle::cycle_fault;
use crate::rule::Rule;
use helix_base::Memory;
use helix_constraints::{FormRule, SizeRule, first_in_constraints};
use helix_fields::{
    constraint_list_fault, field_fault, field_list_fault, name_fault, object_fault,
    profile_key_fault, unique_fault,
};
use helix_json::Json;
use helix_operands::OperandRule;
use helix_places::Place;
use helix_profile::Field;
use helix_references::ReferenceRule;
use std::alloc::Global;

/// The first place in the text where a profile with these declared fields breaks one of the rules S1 to S21. None for
/// any other rule.
pub fn fault_of(
    alloc: Global,
    rule: Rule,
    fields: &[Field],
    v: &Json,
) -> Result<Option<Place>, Memory>
    ensures { IfOk result (λ found. HasNoRepeatedKey v.now → Finds v.now (Broken fields.now rule v.now) found) }
{
    match rule {
        Rule::S1 => object_fault(alloc, v),
        Rule::S2 => profile_key_fault(alloc, v),
        Rule::S3 => field_list_fault(alloc, v),
        Rule::S4 => field_fault(alloc, v),
        Rule::S5 => name_fault(alloc, v),
        Rule::S6 => unique_fault(alloc, v),
        Rule::S7 => constraint_list_fault(alloc, v),
        Rule::S8 => first_in_constraints(alloc, &FormRule, v),
        Rule::S9 => reference_fault_in(alloc, ReferenceRule::Reference, fields, v),
        Rule::S10 => reference_fault_in(alloc, ReferenceRule::Class, fields, v),
        Rule::S11 => operand_fault_in(alloc, OperandRule::Type, fields, v),
        Rule::S12 => operand_fault_in(alloc, OperandRule::Value, fields, v),
        Rule::S13 => operand_fault_in(alloc, OperandRule::Size, fields, v),
        Rule::S14 => operand_fault_in(alloc, OperandRule::Grid, fields, v),
        Rule::S15 => operand_fault_in(alloc, OperandRule::Length, fields, v),
        Rule::S16 => operand_fault_in(alloc, OperandRule::Pattern, fields, v),
        Rule::S17 => first_in_constraints(alloc, &SizeRule, v),
        Rule::S18 => reference_fault_in(alloc, ReferenceRule::OneClass, fields, v),
        Rule::S19 => reference_fault_in(alloc, ReferenceRule::TwoFields, fields, v),
        Rule::S20 => reference_fault_in(alloc, ReferenceRule::Offset, fields, v),
        Rule::S21 => cycle_fault(alloc, fields, v),
        _ => Ok(None),
    }
}

fn reference_fault_in(
    alloc: Global,
    rule: ReferenceRule,
    fields: &[Field],
    v: &Json,
) -> Result<Option<Place>, Memory>
    ensures { IfOk result (λ found. HasNoRepeatedKey v.now
        → Finds v.now (InConstraints (Breaks rule fields.now) v.now) found) }
{
    first_in_constraints(alloc, &ReferenceCheck { rule, fields }, v)
}

fn operand_fault_in(
    alloc: Global,
    rule: OperandRule,
    fields: &[Field],
    v: &Json,
) -> Result<Option<Place>, Memory>
    ensures { IfOk result (λ found. HasNoRepeatedKey v.now
        → Finds v.now (InConstraints (BreaksAtom rule fields.now) v.now) found) }
{
    first_in_constraints(alloc, &OperandCheck { rule, fields }, v)
}
