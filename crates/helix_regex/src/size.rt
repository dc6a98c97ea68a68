//! How large a pattern is: its positions, and how deep its groups are nested.

ghost use Rattle.std.specs.Prelude.{◌≡◌, ℕ, ◌+◌, ◌*◌, ◌||◌, min, nat_lt, reverse, drop, [], IfOk};
ghost use Rattle.helix_regex.specs.Inner.Rules.{deepest};
ghost use Rattle.helix_regex.specs.Inner.Positions.{cap, repeats, total};

use crate::limits::{MAX_DEPTH, MAX_POSITIONS};
use crate::rules::deepest;
use crate::token::Token;
use std::alloc::{AllocError, Global};

/// A number of positions, or 5,001 where it is above 5,000.
fn capped_sum(a: u32, b: u32) -> u32
    ensures { result ≡ cap (a + b) }
{
    (a as u64 + b as u64).min(MAX_POSITIONS as u64 + 1) as u32
}

fn capped_product(a: u32, b: u32) -> u32
    ensures { result ≡ cap (a * b) }
{
    (a as u64 * b as u64).min(MAX_POSITIONS as u64 + 1) as u32
}

/// How often the positions of what is repeated count.
fn repeats(least: u32, most: Option<u32>) -> u32
    ensures { result ≡ repeats least most }
{
    match most {
        Some(most) => most,
        None => least.max(1),
    }
}

/// The positions of a pattern, or 5,001 where it has more than 5,000. `outer` has those before each open group.
fn positions(alloc: Global, tokens: &[Token]) -> Result<u32, AllocError>
    ensures { IfOk result (λ all. all ≡ total [] 0 0 tokens.now) }
{
    let mut outer: Vec<u32> = Vec::new(alloc);
    let mut sum: u32 = 0;
    let mut last: u32 = 0;
    for token in tokens {
        match *token {
            Token::Literal(_) | Token::Dot | Token::Set(_) | Token::ClassEnd => {
                sum = capped_sum(sum, last);
                last = 1;
            }
            Token::Repeat(least, most, _) => last = capped_product(last, repeats(least, most)),
            Token::Open => {
                outer.push(capped_sum(sum, last))?;
                sum = 0;
                last = 0;
            }
            Token::Close => {
                if let Some(before) = outer.pop() {
                    last = capped_sum(sum, last);
                    sum = before;
                }
            }
            _ => {}
        }
    }
    Ok(capped_sum(sum, last))
}

/// Whether a pattern has more than 5,000 positions, or groups nested more than 64 deep.
pub fn is_too_large(alloc: Global, tokens: &[Token]) -> Result<bool, AllocError>
    ensures { IfOk result (λ large. large
        ≡ (nat_lt 5000 (total [] 0 0 tokens.now) || nat_lt 64 (deepest 0 tokens.now))) }
{
    let positions = positions(alloc, tokens)?;
    let deepest = deepest(tokens);
    Ok(MAX_POSITIONS < positions || MAX_DEPTH < deepest)
}
