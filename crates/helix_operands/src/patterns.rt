//! Patterns.

ghost use Rattle.std.specs.Prelude.{IfOk};
ghost use Rattle.helix_operands.specs.Values.{GivesPattern, IsPatternOf, Reads};

use helix_base::{Memory, Text};
use helix_json::Json;
use helix_regex::{Regex, RegexError, parse};
use std::alloc::Global;

/// The expression of the pattern that a JSON value gives.
pub fn pattern_in(alloc: Global, json: &Json) -> Result<Option<Regex>, Memory>
    ensures { IfOk result (Reads (GivesPattern json.now)) }
{
    match json {
        Json::Str(text) => parsed(alloc, text),
        Json::Null => Ok(None),
        Json::Bool(_) => Ok(None),
        Json::Number(_) => Ok(None),
        Json::List(_) => Ok(None),
        Json::Object(_) => Ok(None),
    }
}

fn parsed(alloc: Global, text: &Text) -> Result<Option<Regex>, Memory>
    ensures { IfOk result (Reads (IsPatternOf text.now)) }
{
    match parse(alloc, text) {
        Ok(regex) => Ok(Some(regex)),
        Err(RegexError::Fault(_)) => Ok(None),
        Err(RegexError::Memory) => Err(Memory),
    }
}
