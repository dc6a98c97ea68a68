//! The rules on the form of a constraint.

ghost use Rattle.std.specs.Prelude.{◌≡◌, IfOk, option_copied, true};
ghost use Rattle.helix_json.specs.Values.{HasNoRepeatedKey};
ghost use Rattle.helix_places.specs.Members.{members_of};
ghost use Rattle.helix_places.specs.Places.{Finds, Here, InMember};
ghost use Rattle.helix_constraints.specs.AloneLaws.{form_alone, size_alone};
ghost use Rattle.helix_constraints.specs.Rules.{AtOperand, BreaksForm, BreaksSize, form_in, is_empty_list, list_key};
ghost use Rattle.helix_constraints.specs.Inner.Operands.{passes};

use crate::rule::ConstraintRule;
use helix_base::Memory;
use helix_fields::{refused_at, value_in};
use helix_json::{Json, Member};
use helix_keywords::{Form, form_of};
use helix_places::{Place, as_list, as_object};
use std::alloc::Global;

/// S8: a constraint is an object of one of the forms, and `anyOf` and `allOf` are lists.
#[derive(Clone, Copy, Debug)]
pub struct FormRule;

/// S17: `anyOf` and `allOf` aren't empty.
#[derive(Clone, Copy, Debug)]
pub struct SizeRule;

impl ConstraintRule for FormRule {
    ghost breaks = { λ s. BreaksForm };

    fn fault(&self, alloc: Global, constraint: &Json) -> Result<Option<Place>, Memory> {
        form_fault(alloc, constraint)
    }

    ghost own_first = { λ s. form_alone };
}

impl ConstraintRule for SizeRule {
    ghost breaks = { λ s. BreaksSize };

    fn fault(&self, alloc: Global, constraint: &Json) -> Result<Option<Place>, Memory> {
        size_fault(alloc, constraint)
    }

    ghost own_first = { λ s. size_alone };
}

/// A test of the operand of `anyOf` or `allOf`.
#[derive(Clone, Copy, Debug)]
enum OperandTest {
    NoList,
    Empty,
}

/// The place where a constraint itself breaks S8.
fn form_fault(alloc: Global, v: &Json) -> Result<Option<Place>, Memory>
    ensures { IfOk result (λ found. HasNoRepeatedKey v.now → Finds v.now (BreaksForm v.now) found) }
{
    match form_in(v) {
        Some(_) => operand_fault(alloc, OperandTest::NoList, v),
        None => Ok(Some(Place::top(alloc))),
    }
}

/// The place where a constraint itself breaks S17.
fn size_fault(alloc: Global, v: &Json) -> Result<Option<Place>, Memory>
    ensures { IfOk result (λ found. HasNoRepeatedKey v.now → Finds v.now (BreaksSize v.now) found) }
{
    operand_fault(alloc, OperandTest::Empty, v)
}

/// The place of `anyOf` or `allOf`, where its operand passes the test.
fn operand_fault(alloc: Global, test: OperandTest, v: &Json) -> Result<Option<Place>, Memory>
    ensures { IfOk result (λ found. HasNoRepeatedKey v.now → Finds v.now (AtOperand (passes test) v.now) found) }
{
    match list_key(form_in(v)) {
        Some(key) => fault_under(alloc, test, key, v),
        None => Ok(None),
    }
}

fn fault_under(
    alloc: Global,
    test: OperandTest,
    key: &str,
    v: &Json,
) -> Result<Option<Place>, Memory>
    ensures { IfOk result (λ found. HasNoRepeatedKey v.now
        → Finds v.now (InMember key.now (Here (λ w. passes test w ≡ true)) v.now) found) }
{
    match value_in(v, key) {
        Some(operand) => refused_at(alloc, key, passes(test, operand)),
        None => Ok(None),
    }
}

fn passes(test: OperandTest, operand: &Json) -> bool
    ensures { result ≡ passes test operand.now }
{
    match test {
        OperandTest::NoList => as_list(operand).is_none(),
        OperandTest::Empty => is_empty_list(operand),
    }
}

fn is_empty_list(json: &Json) -> bool
    ensures { result ≡ is_empty_list json.now }
{
    match as_list(json) {
        Some(items) => items.len() == 0,
        None => false,
    }
}

/// The keyword of a form whose operand is a list of constraints.
fn list_key(form: Option<Form>) -> Option<&'static str>
    ensures { option_copied result ≡ list_key form }
{
    match form {
        Some(Form::AnyOf) => Some("anyOf"),
        Some(Form::AllOf) => Some("allOf"),
        _ => None,
    }
}

/// The form of a constraint, which only an object has.
fn form_in(v: &Json) -> Option<Form>
    ensures { result ≡ form_in v.now }
{
    form_of(members_in(v))
}

fn members_in(v: &Json) -> &[Member]
    ensures { result.now ≡ members_of v.now }
{
    match as_object(v) {
        Some(members) => members,
        None => &[],
    }
}
