//! Atomic constraints, and the rules on their operands.

ghost use Rattle.std.specs.Prelude.{◌≡◌, IfOk};
ghost use Rattle.helix_json.specs.Values.{HasNoRepeatedKey};
ghost use Rattle.helix_places.specs.Places.{Finds};
ghost use Rattle.helix_references.specs.Naming.{kind_at};
ghost use Rattle.helix_rules.specs.Atoms.{BreaksAtom, InOperand, atom_in, atom_of};

use helix_base::Memory;
use helix_fields::{value_in, within};
use helix_json::Json;
use helix_keywords::{Form, Keyword, form_of};
use helix_operands::{OperandRule, operand_fault};
use helix_places::{Place, as_object};
use helix_profile::Field;
use helix_references::field_of;
use helix_values::Kind;
use std::alloc::Global;

/// What an atomic constraint is about: the kind of its field, and its keyword.
#[derive(Clone, Copy, Debug)]
pub struct Atom {
    pub kind: Kind,
    pub keyword: Keyword,
}

/// The first place in a constraint where its operand breaks a rule.
pub fn atom_fault(
    alloc: Global,
    rule: OperandRule,
    fields: &[Field],
    v: &Json,
) -> Result<Option<Place>, Memory>
    ensures { IfOk result (λ found. HasNoRepeatedKey v.now
        → Finds v.now (BreaksAtom rule fields.now v.now) found) }
{
    match atom_in(fields, v) {
        Some(atom) => fault_in_operand(alloc, rule, atom, v),
        None => Ok(None),
    }
}

fn fault_in_operand(
    alloc: Global,
    rule: OperandRule,
    atom: Atom,
    v: &Json,
) -> Result<Option<Place>, Memory>
    ensures { IfOk result (λ found. HasNoRepeatedKey v.now → Finds v.now (InOperand rule atom v.now) found) }
{
    let word = atom.keyword.word();
    match value_in(v, word) {
        Some(operand) => {
            let found = operand_fault(alloc, rule, atom.kind, atom.keyword, operand)?;
            within(alloc, word, found)
        }
        None => Ok(None),
    }
}

/// The keyword of an atomic constraint, and the kind of the declared field that it names.
fn atom_in(fields: &[Field], v: &Json) -> Option<Atom>
    ensures { result ≡ atom_in fields.now v.now }
{
    match as_object(v) {
        Some(members) => atom_of(form_of(members), kind_at(fields, field_of(fields, members))),
        None => None,
    }
}

fn atom_of(form: Option<Form>, kind: Option<Kind>) -> Option<Atom>
    ensures { result ≡ atom_of form kind }
{
    match (form, kind) {
        (Some(Form::Atom(keyword)), Some(kind)) => Some(Atom { kind, keyword }),
        _ => None,
    }
}

/// The kind of the field with an index.
fn kind_at(fields: &[Field], index: Option<usize>) -> Option<Kind>
    ensures { result ≡ kind_at fields.now index }
{
    match index {
        Some(index) => match fields.get(index) {
            Some(field) => Some(field.kind),
            None => None,
        },
        None => None,
    }
}
