//! A case: a word that names a reader, and what it is given.

use crate::bytes::bytes_of;
use crate::{json, pattern};
use helix_base::{Memory, Text};
use helix_json::{is_number, number_units};
use std::alloc::Global;

/// The answer to a line.
pub fn answer(alloc: Global, line: &str) -> Result<String, Memory> {
    if line.is_empty() || line.starts_with('#') {
        return Ok(line.to_string(alloc)?);
    }
    let (reader, text) = line.split_once(' ').unwrap_or((line, ""));
    match reader {
        "json" => json::answer(alloc, bytes_of(alloc, text)?.as_slice()),
        "units" => units(alloc, text),
        "pattern" => pattern::answer(alloc, bytes_of(alloc, text)?),
        _ => Ok(format!(in alloc; "no case")?),
    }
}

/// How many units a number is.
fn units(alloc: Global, text: &str) -> Result<String, Memory> {
    let number = Text::of(alloc, text)?;
    if !is_number(&number) {
        return Ok(format!(in alloc; "no number")?);
    }
    match number_units(&number) {
        Some(units) => Ok(format!(in alloc; "{units}")?),
        None => Ok(format!(in alloc; "none")?),
    }
}
