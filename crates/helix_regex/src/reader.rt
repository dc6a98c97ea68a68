//! Patterns, read exactly.

ghost use Rattle.std.specs.Prelude.{◌≡◌, IfOk, IfErr};
ghost use Rattle.helix_regex.specs.declared.fault.RegexFault.{RegexFault as Broken};
ghost use Rattle.helix_regex.specs.Meaning.{SpellsPattern};
ghost use Rattle.helix_regex.specs.Faults.{FirstFault};
ghost use Rattle.helix_regex.specs.Parsing.{IsCause};

use crate::assembly::build;
use crate::check::{text_fault, token_fault};
use crate::fault::{RegexError, RegexFault};
use crate::lexer::tokens_of;
use helix_base::{Memory, Text};
use helix_expr::Regex;
use std::alloc::Global;

/// The expression that a pattern spells, or the first rule that it breaks. The text may be of any length and nesting.
pub fn parse(alloc: Global, text: &Text) -> Result<Regex, RegexError>
    ensures spelt { IfOk result (λ regex. SpellsPattern text.now regex) }
    ensures sound { IfOk result (λ regex. (fault : Broken) → ¬ (FirstFault text.now fault)) }
    ensures cause { IfErr result (λ error. IsCause text.now error) }
{
    match read(alloc, text.codes()) {
        Ok(Ok(regex)) => Ok(regex),
        Ok(Err(fault)) => Err(RegexError::Fault(fault)),
        Err(_) => Err(RegexError::Memory),
    }
}

/// The same from code points, with running out of memory as an error of its own.
fn read(alloc: Global, codes: &[u32]) -> Result<Result<Regex, RegexFault>, Memory>
    ensures spelt { IfOk result (λ answer. IfOk answer (λ regex. SpellsPattern codes.now regex)) }
    ensures sound { IfOk result (λ answer. IfOk answer (λ regex. (fault : Broken) → ¬ (FirstFault codes.now fault))) }
    ensures cause { IfOk result (λ answer. IfErr answer (λ fault. FirstFault codes.now fault)) }
{
    if let Some(fault) = text_fault(codes) {
        return Ok(Err(fault));
    }
    let tokens = tokens_of(alloc, codes)?;
    let found = token_fault(alloc, tokens.as_slice(), codes.len())?;
    match found {
        Some(fault) => Ok(Err(fault)),
        None => {
            let regex = build(alloc, tokens.as_slice())?;
            Ok(Ok(regex))
        }
    }
}
