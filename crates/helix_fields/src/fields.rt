//! The fields and the constraints that a profile declares.

ghost use Rattle.std.specs.Prelude.{◌≡◌, IfOk, codes, map};
ghost use Rattle.std.specs.List.{AllByRecursion};
ghost use Rattle.helix_places.specs.Members.{members_of, value_of};
ghost use Rattle.helix_fields.specs.FieldRules.{BreaksField, BreaksFieldName, name_of};
ghost use Rattle.helix_fields.specs.Under.{items_under, text_under};
ghost use Rattle.helix_fields.specs.Fields.{AreValidFields, Declares, IsNowhere, constraints_of, field_of, fields_of, is_nullable, kind_of_word, name_or_empty};
ghost use Rattle.helix_fields.specs.Whole.{BreaksFieldList};

use crate::kinds::kind_named;
use crate::names::name_in;
use crate::parts::{items_under, text_under, value_in};
use helix_base::{Alphabet, Memory, Text};
use helix_json::Json;
use helix_profile::{Field, Fields};
use helix_values::Kind;
use std::alloc::Global;

/// The fields of a profile, in their declared order, whose strings are of the alphabet.
pub fn read_fields(alloc: Global, alphabet: Alphabet, v: &Json) -> Result<Fields, Memory>
    ensures fields { IfOk result (λ fields. fields ≡ fields_of alphabet v.now) }
    ensures declared { IsNowhere BreaksFieldList v.now → IsNowhere BreaksField v.now
        → AllByRecursion (λ item. Declares alphabet item (field_of alphabet item))
        (items_under (codes "fields") v.now) }
    ensures valid { IsNowhere BreaksFieldList v.now → IsNowhere BreaksField v.now → IsNowhere BreaksFieldName v.now
        → IfOk result AreValidFields }
{
    each_field(alloc, alphabet, items_under(v, "fields"))
}

fn each_field(alloc: Global, alphabet: Alphabet, items: &[Json]) -> Result<Fields, Memory>
    ensures { IfOk result (λ fields. fields ≡ map (field_of alphabet) items.now) }
{
    let mut all = Fields::new(alloc);
    for item in items {
        all.push(read_field(alloc, alphabet, item)?)?;
    }
    Ok(all)
}

fn read_field(alloc: Global, alphabet: Alphabet, item: &Json) -> Result<Field, Memory>
    ensures { IfOk result (λ field. field ≡ field_of alphabet item.now) }
{
    Ok(Field {
        name: name_or_empty(alloc, item)?,
        kind: kind_in(alphabet, item),
        nullable: is_nullable(item),
    })
}

fn name_or_empty(alloc: Global, item: &Json) -> Result<Text, Memory>
    ensures { IfOk result (λ text. text ≡ name_or_empty (name_of item.now)) }
{
    match name_in(item) {
        Some(text) => text.copy(alloc),
        None => Ok(Text::new(alloc)),
    }
}

fn kind_in(alphabet: Alphabet, item: &Json) -> Kind
    ensures { result ≡ kind_of_word alphabet (text_under (codes "type") item.now) }
{
    match text_under(item, "type") {
        Some(text) => kind_named(alphabet, text.codes()).unwrap_or(Kind::Boolean),
        None => Kind::Boolean,
    }
}

fn is_nullable(item: &Json) -> bool
    ensures { result ≡ is_nullable (value_of (codes "nullable") (members_of item.now)) }
{
    match value_in(item, "nullable") {
        Some(Json::Bool(b)) => *b,
        _ => true,
    }
}

/// The items of `constraints`, and none where there is no such list.
pub fn constraints_in(v: &Json) -> &[Json]
    ensures { result.now ≡ constraints_of v.now }
{
    items_under(v, "constraints")
}
