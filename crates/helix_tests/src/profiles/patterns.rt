//! Patterns, from the characters that they are made of.

use helix_base::Memory;
use helix_expr::{Expr, Exprs, Ranges, Regex};
use sqlite_items::Boxed;
use std::alloc::Global;

/// Characters of ranges, with the least and the greatest number of them.
pub type Piece<'a> = (&'a [(char, char)], u32, Option<u32>);

fn characters(alloc: Global, (ranges, least, most): Piece<'_>) -> Result<Expr, Memory> {
    let mut all = Ranges::new(alloc);
    for (first, last) in ranges {
        all.push((*first as u32, *last as u32))?;
    }
    Ok(Expr::Repeat(Boxed::new(alloc, Expr::Chars(all))?, least, most))
}

fn letters(alloc: Global, word: &str) -> Result<Exprs, Memory> {
    let mut parts = Exprs::new(alloc);
    for code in word.chars() {
        parts.push(characters(alloc, (&[(code, code)], 1, Some(1)))?)?;
    }
    Ok(parts)
}

/// The characters of a text, and then the pieces.
pub fn regex(alloc: Global, word: &str, pieces: &[Piece<'_>]) -> Result<Regex, Memory> {
    let mut parts = letters(alloc, word)?;
    for piece in pieces {
        parts.push(characters(alloc, *piece)?)?;
    }
    parts.push(Expr::Empty)?;
    Ok(Regex {
        expr: Expr::Seq(parts),
        at_start: true,
        at_end: false,
    })
}
