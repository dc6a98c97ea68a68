//! The expression of a pattern, built from its tokens.

ghost use Rattle.std.specs.Prelude.{◌≡◌, [], IfOk};
ghost use Rattle.helix_regex.specs.Pattern.{Pattern};
ghost use Rattle.helix_regex.specs.Inner.Tokens.{tokens as tokens_of};
ghost use Rattle.helix_regex.specs.Faults.{bad_counts};
ghost use Rattle.helix_regex.specs.Meaning.{MeansRegex};
ghost use Rattle.helix_regex.specs.Inner.Building.{Steps, IsBuilt};

use crate::atoms::{
    end_class, push_class_range, push_class_set, push_dot, push_item, push_literal, push_named,
};
use crate::builder::{Builder, alternatives, close_group, end_sequence, open_group, repeat_last};
use crate::rules::{has_caret, has_dollar};
use crate::token::Token;
use helix_base::Memory;
use helix_expr::Regex;
use std::alloc::Global;

/// What is built after one more token.
fn step(alloc: Global, builder: Builder, token: Token) -> Result<Builder, Memory>
    ensures { IfOk result (Steps builder token) }
{
    match token {
        Token::Bar(_) => end_sequence(alloc, builder),
        Token::Caret(_) | Token::Dollar(_) => Ok(builder),
        Token::Open => open_group(alloc, builder),
        Token::Close => close_group(builder),
        Token::Literal(code) => push_literal(alloc, builder, code),
        Token::Dot => push_dot(alloc, builder),
        Token::Set(letter) => push_named(alloc, builder, letter),
        Token::ClassStart => Ok(Builder {
            raw: Vec::new(alloc),
            excluded: false,
            ..builder
        }),
        Token::Exclude => Ok(Builder {
            excluded: true,
            ..builder
        }),
        Token::Item(code) => push_item(builder, code),
        Token::Range(first, last, _) => push_class_range(builder, first, last),
        Token::SetItem(letter) => push_class_set(builder, letter),
        Token::ClassEnd => end_class(alloc, builder),
        Token::Repeat(least, most, _) => repeat_last(alloc, builder, least, most),
    }
}

/// What is built after tokens.
fn run(alloc: Global, tokens: &[Token]) -> Result<Builder, Memory>
    ensures { IfOk result (IsBuilt tokens.now) }
{
    let mut builder = Builder::new(alloc);
    for token in tokens {
        builder = step(alloc, builder, *token)?;
    }
    Ok(builder)
}

/// The expression of a pattern, from its tokens. Its counts are at most 1,000.
pub fn build(alloc: Global, tokens: &[Token]) -> Result<Regex, Memory>
    ensures { IfOk result (λ regex. (pattern : Pattern) → tokens.now ≡ tokens_of 0 pattern → bad_counts 0 pattern ≡ []
        → MeansRegex pattern regex) }
{
    let Builder {
        outer: _,
        done,
        pieces,
        raw: _,
        excluded: _,
    } = run(alloc, tokens)?;
    let expr = alternatives(done, pieces)?;
    Ok(Regex {
        expr,
        at_start: has_caret(tokens),
        at_end: has_dollar(tokens),
    })
}
