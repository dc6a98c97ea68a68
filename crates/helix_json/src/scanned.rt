//! What a text is read as.

use crate::token::Token;

/// The tokens of a text that spells a value, each with its offset in characters.
#[derive(Debug, Drop)]
pub struct Scanned {
    pub tokens: Vec<Token>,
    pub offsets: Vec<usize>,
}

/// The tokens, or the offset of a syntax error: the length of the longest viable prefix.
#[derive(Debug, Drop)]
pub enum Scan {
    Tokens(Scanned),
    SyntaxError(usize),
}
