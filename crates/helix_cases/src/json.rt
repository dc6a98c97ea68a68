//! The value that bytes spell as JSON.

use crate::bytes::push_shown;
use helix_base::{Memory, Text};
use helix_json::{Json, read};
use std::alloc::Global;

/// A copy of the value that bytes spell, or why they spell none.
pub fn answer(alloc: Global, bytes: &[u8]) -> Result<String, Memory> {
    match read(alloc, bytes) {
        Ok(value) => {
            let copy = value.copy(alloc)?;
            let mut all = String::new(alloc);
            push_value(alloc, &mut all, &copy)?;
            Ok(all)
        }
        Err(fault) => Ok(format!(in alloc; "{fault}")?),
    }
}

/// A value as it is, but for a string between `'` and a number after `#`, with a blank after each
/// item and member.
fn push_value(alloc: Global, all: &mut String, value: &Json) -> Result<(), Memory> {
    match value {
        Json::Null => all.push_str("null")?,
        Json::Bool(true) => all.push_str("true")?,
        Json::Bool(false) => all.push_str("false")?,
        Json::Number(text) => push_text(alloc, all, "#", text, "")?,
        Json::Str(text) => push_text(alloc, all, "'", text, "'")?,
        Json::List(items) => {
            all.push_str("[")?;
            for item in items.as_slice() {
                push_value(alloc, all, item)?;
                all.push_str(" ")?;
            }
            all.push_str("]")?;
        }
        Json::Object(members) => {
            all.push_str("{")?;
            for member in members.as_slice() {
                push_text(alloc, all, "'", &member.key, "':")?;
                push_value(alloc, all, &member.value)?;
                all.push_str(" ")?;
            }
            all.push_str("}")?;
        }
    }
    Ok(())
}

fn push_text(
    alloc: Global,
    all: &mut String,
    prefix: &str,
    text: &Text,
    suffix: &str,
) -> Result<(), Memory> {
    let written = text.written(alloc)?;
    all.push_str(prefix)?;
    push_shown(alloc, all, written.as_str())?;
    all.push_str(suffix)?;
    Ok(())
}
