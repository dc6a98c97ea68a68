//! The table of tests.

ghost use Rattle.std.specs.Prelude.{◌≡◌, Some, IfOk, codes};
ghost use Rattle.helix_json.specs.declared.value.Json.TheViews as view;
ghost use Rattle.helix_legacy.specs.Forms.{line_of, word_of};
ghost use Rattle.helix_legacy.specs.Today.{keyword_test, line_today, or_empty, or_null, the};

use crate::form::{Line, line_of};
use helix_base::{Memory, Text};
use helix_json::{Json, Member, Members};
use helix_places::{value_of, word_text};
use std::alloc::Global;

/// Today's form of a test, by its line of the table.
pub fn test_today(alloc: Global, members: &[Member]) -> Result<Json, Memory>
    ensures { IfOk result (λ today. today ≡ line_today (line_of members.now) members.now) }
{
    match line_of(members) {
        None => copy_object(alloc, members),
        Some(line) => line_today(alloc, line, members),
    }
}

fn line_today(alloc: Global, line: Line, members: &[Member]) -> Result<Json, Memory>
    ensures { IfOk result (λ today. today ≡ line_today (Some line) members.now) }
{
    let field = the(alloc, "field", members)?;
    match line {
        Line::Null => keyword_test(alloc, field, word_text(alloc, "isNull")?, Json::Bool(true)),
        Line::Values => set_today(alloc, field, the(alloc, "values", members)?),
        Line::File => set_today(alloc, field, the(alloc, "file", members)?),
        Line::Value => {
            let word = copied_word(alloc, members)?;
            keyword_test(alloc, field, word, the(alloc, "value", members)?)
        }
    }
}

fn set_today(alloc: Global, field: Json, operand: Json) -> Result<Json, Memory>
    ensures { IfOk result (λ today. today ≡ keyword_test field (codes "inSet") operand) }
{
    keyword_test(alloc, field, word_text(alloc, "inSet")?, operand)
}

/// A test by a keyword.
fn keyword_test(alloc: Global, field: Json, keyword: Text, operand: Json) -> Result<Json, Memory>
    ensures { IfOk result (λ test. test ≡ keyword_test field keyword operand) }
{
    let mut members = Members::new(alloc);
    members.push(Member {
        key: word_text(alloc, "field")?,
        value: field,
    })?;
    members.push(Member {
        key: keyword,
        value: operand,
    })?;
    Ok(Json::Object(members))
}

/// The value of the member with a key.
fn the(alloc: Global, key: &str, members: &[Member]) -> Result<Json, Memory>
    ensures { IfOk result (λ value. value ≡ the key.now members.now) }
{
    match value_of(members, key) {
        Some(value) => value.copy(alloc),
        None => Ok(Json::Null),
    }
}

/// The word of a test.
#[tactic(auto, unfolding(crate::specs::Forms::word_of))]
fn copied_word(alloc: Global, members: &[Member]) -> Result<Text, Memory>
    ensures { IfOk result (λ word. word ≡ or_empty (word_of members.now)) }
{
    match value_of(members, "is") {
        Some(Json::Str(text)) => text.copy(alloc),
        _ => Ok(Text::new(alloc)),
    }
}

/// An object with copies of these members.
pub fn copy_object(alloc: Global, members: &[Member]) -> Result<Json, Memory>
    ensures { IfOk result (λ copy. copy ≡ view.Object members.now) }
{
    let mut all = Members::new(alloc);
    for member in members {
        all.push(member.copy(alloc)?)?;
    }
    Ok(Json::Object(all))
}
