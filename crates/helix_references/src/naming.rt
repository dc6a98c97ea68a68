//! Fields by their names.

ghost use Rattle.std.specs.Prelude.{◌≡◌, ◌<◌, IfSome, IsSome, bytes_eq, codes, length, option_copied};
ghost use Rattle.helix_json.specs.declared.value.Json.TheViews as view;
ghost use Rattle.helix_keywords.specs.Forms.{HasForm};
ghost use Rattle.helix_keywords.specs.declared.form.Form.TheVariants as form;
ghost use Rattle.helix_keywords.specs.declared.keyword.Keyword.{Keyword as Atomic};
ghost use Rattle.helix_places.specs.Members.{value_of};
ghost use Rattle.helix_references.specs.Rules.{IsUnbroken};
ghost use Rattle.helix_references.specs.Naming.{index_by, index_in, index_named, kind_at};

use helix_json::{Json, Member};
use helix_places::value_of;
use helix_profile::Field;
use helix_values::Kind;

/// The index of the first field with a name.
pub fn field_named(fields: &[Field], name: &[u32]) -> Option<usize>
    ensures value { result ≡ index_named fields.now name.now }
    ensures within { IfSome result (λ index. index < length fields.now) }
{
    for (i, field) in fields.iter().enumerate() {
        if is_same_text(field.name.codes(), name) {
            return Some(i);
        }
    }
    None
}

fn is_same_text(text: &[u32], other: &[u32]) -> bool
    ensures { result ≡ bytes_eq text.now other.now }
{
    text == other
}

/// The index of the field whose name a value is.
pub fn index_in(fields: &[Field], value: &Json) -> Option<usize>
    ensures value { result ≡ index_in fields.now value.now }
    ensures within { IfSome result (λ index. index < length fields.now) }
{
    match value {
        Json::Str(name) => field_named(fields, name.codes()),
        _ => None,
    }
}

/// The same of a value that may be missing.
pub fn index_by(fields: &[Field], value: Option<&Json>) -> Option<usize>
    ensures value { result ≡ index_by fields.now (option_copied value.entry) }
    ensures within { IfSome result (λ index. index < length fields.now) }
{
    match value {
        Some(value) => index_in(fields, value),
        None => None,
    }
}

/// The index of the field of a constraint, which its member `field` names.
pub fn field_of(fields: &[Field], members: &[Member]) -> Option<usize>
    ensures value { result ≡ index_by fields.now (value_of (codes "field") members.now) }
    ensures within { IfSome result (λ index. index < length fields.now) }
    ensures complete { (keyword : Atomic) → HasForm members.now (form.Atom keyword)
        → IsUnbroken fields.now (view.Object members.now) → IsSome result }
{
    index_by(fields, value_of(members, "field"))
}

/// The kind of the field with an index.
pub fn kind_at(fields: &[Field], index: Option<usize>) -> Option<Kind>
    ensures { result ≡ kind_at fields.now index }
{
    match index {
        Some(index) => match fields.get(index) {
            Some(field) => Some(field.kind),
            None => None,
        },
        None => None,
    }
}
