//! Regular expressions and what they match.
//!
//! ```
//! let mut digits = Ranges::new(alloc);
//! digits.push(('0' as u32, '9' as u32))?;
//! let expr = Expr::Repeat(Boxed::new(alloc, Expr::Chars(digits))?, 1, None);
//! let found = matches(&expr, &['4' as u32, '2' as u32]);     // true
//! ```
//!
//! - An [`Expr`] says which words over code points it matches, as textbooks define it: `Matches` of
//!   `specs/Matching.antt`.
//! - A [`Regex`] may bind a match to the word's start or end: `ContainsMatch`.
//! - [`matches`] and [`contains_match`] decide both plainly, so that a faster body can be compared with them: their
//!   time grows exponentially with the word.
//! - `copy` of each, and [`copy_exprs`], give equal values.
//!
//! What an expression's parts match, said of their list as code sees it, is in `specs/MatchingLaws.antt`, for the
//! crates above.
#![tactic(auto)]

mod containing;
mod expr;
mod matching;
mod regex;

pub use containing::contains_match;
pub use expr::{Expr, Exprs, Ranges, copy_exprs};
pub use matching::matches;
pub use regex::Regex;

#[cfg(test)]
mod tests;
