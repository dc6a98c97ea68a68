//! The expression that a pattern spells.

use helix_base::{Memory, Text};
use helix_regex::{Expr, Regex, parse};
use std::alloc::Global;

/// An expression as short text: codes and ranges of codes, parts in parentheses, and numbers in braces.
#[cycle(shown)]
fn push_shown(alloc: Global, out: &mut String, expr: &Expr) -> Result<(), Memory> {
    match expr {
        Expr::Empty => out.push('e')?,
        Expr::Chars(ranges) => push_ranges(alloc, out, ranges.as_slice())?,
        Expr::Seq(parts) => push_parts(alloc, out, parts.as_slice(), ' ')?,
        Expr::Alt(parts) => push_parts(alloc, out, parts.as_slice(), '|')?,
        Expr::Repeat(part, least, most) => {
            push_shown(alloc, out, part.get())?;
            let limits = match most {
                Some(most) => format!(in alloc; "{{{least},{most}}}")?,
                None => format!(in alloc; "{{{least},}}")?,
            };
            out.push_str(limits.as_str())?;
        }
    }
    Ok(())
}

#[cycle(shown)]
fn push_parts(
    alloc: Global,
    out: &mut String,
    parts: &[Expr],
    between: char,
) -> Result<(), Memory> {
    out.push('(')?;
    for (i, part) in parts.iter().enumerate() {
        if i > 0 {
            out.push(between)?;
        }
        push_shown(alloc, out, part)?;
    }
    out.push(')')?;
    Ok(())
}

fn push_ranges(alloc: Global, out: &mut String, ranges: &[(u32, u32)]) -> Result<(), Memory> {
    for (i, range) in ranges.iter().enumerate() {
        if i > 0 {
            out.push(',')?;
        }
        let text = if range.0 == range.1 {
            format!(in alloc; "{}", range.0)?
        } else {
            format!(in alloc; "{}-{}", range.0, range.1)?
        };
        out.push_str(text.as_str())?;
    }
    Ok(())
}

/// What a pattern gives, as short text: the expression between its anchors, or the rule and the offset.
pub fn answer(alloc: Global, bytes: Vec<u8>) -> Result<String, Memory> {
    let Ok(pattern) = String::from_utf8(bytes) else {
        return Ok(format!(in alloc; "no text")?);
    };
    let text = Text::of(alloc, pattern.as_str())?;
    match parse(alloc, &text) {
        Ok(
            Regex {
                expr,
                at_start,
                at_end,
            },
        ) => {
            let mut out = String::new(alloc);
            if at_start {
                out.push('^')?;
            }
            push_shown(alloc, &mut out, &expr)?;
            if at_end {
                out.push('$')?;
            }
            Ok(out)
        }
        Err(error) => Ok(format!(in alloc; "{error}")?),
    }
}
