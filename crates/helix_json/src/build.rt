//! The value that tokens are of.

ghost use Rattle.std.specs.Prelude.{◌≡◌, List, [], ◌∷◌, IfOk, Some, IsSome};
ghost use Rattle.helix_json.specs.declared.build.Frame.{Frame as Kept};
ghost use Rattle.helix_json.specs.Tokens.{tokens as tokens_of};
ghost use Rattle.helix_json.specs.Inner.Rules.{AreTokens};
ghost use Rattle.helix_json.specs.Inner.Machine.{step, value_step, first_item, first_key, after, in_list, in_object};
ghost use Rattle.helix_json.specs.Inner.Building.{reading_of, frames_of};

use crate::token::Token;
use crate::value::{Items, Json, Member, Members};
use helix_base::{Memory, Text};
use std::alloc::Global;

/// A list or an object that is open, with what it has so far, and the key whose value is read.
#[derive(Debug, Drop)]
enum Frame {
    List(Items),
    Object(Members, Text),
}

/// What comes next, inside of the open frames.
#[derive(Debug, Drop)]
enum Next {
    Value,
    FirstItem,
    FirstKey,
    Key(Members),
    Colon(Members, Text),
    After(Json),
}

/// The value with these tokens.
pub fn build(alloc: Global, tokens: Vec<Token>) -> Result<Json, Memory>
    requires { AreTokens tokens.items }
    ensures { IfOk result (λ value. tokens_of value ≡ tokens.items) }
{
    let mut frames = Vec::new(alloc);
    let mut next = Next::Value;
    for token in tokens {
        next = advance(alloc, next, &mut frames, token)?;
    }
    match next {
        Next::After(value) => Ok(value),
        _ => unreachable!(),
    }
}

/// What comes next after a token.
fn advance(alloc: Global, next: Next, frames: &mut Vec<Frame>, token: Token) -> Result<Next, Memory>
    requires { IsSome (step (reading_of next frames.old.items) token) }
    ensures { IfOk result (λ then. step (reading_of next frames.old.items) token
        ≡ Some (reading_of then frames.new.items)) }
{
    match next {
        Next::Value => Ok(begin_value(token)),
        Next::FirstItem => begin_item(alloc, frames, token),
        Next::FirstKey => Ok(begin_member(alloc, token)),
        Next::Key(members) => match token {
            Token::Str(key) => Ok(Next::Colon(members, key)),
            _ => unreachable!(),
        },
        Next::Colon(members, key) => {
            frames.push(Frame::Object(members, key))?;
            Ok(Next::Value)
        }
        Next::After(value) => end_value(value, frames, token),
    }
}

/// What comes next after the first token of a value.
fn begin_value(token: Token) -> Next
    requires { IsSome (value_step [] token) }
    ensures { (frames : List Kept) → value_step (frames_of frames) token ≡ Some (reading_of result frames) }
{
    match token {
        Token::Null => Next::After(Json::Null),
        Token::True => Next::After(Json::Bool(true)),
        Token::False => Next::After(Json::Bool(false)),
        Token::Number(text) => Next::After(Json::Number(text)),
        Token::Str(text) => Next::After(Json::Str(text)),
        Token::OpenList => Next::FirstItem,
        Token::OpenObject => Next::FirstKey,
        _ => unreachable!(),
    }
}

/// What comes next after the first token of a list's first item, or after the end of a list
/// with no item.
fn begin_item(alloc: Global, frames: &mut Vec<Frame>, token: Token) -> Result<Next, Memory>
    requires { IsSome (step (first_item []) token) }
    ensures { IfOk result (λ then. step (first_item (frames_of frames.old.items)) token
        ≡ Some (reading_of then frames.new.items)) }
{
    match token {
        Token::CloseList => Ok(Next::After(Json::List(Items::new(alloc)))),
        _ => {
            frames.push(Frame::List(Items::new(alloc)))?;
            Ok(begin_value(token))
        }
    }
}

/// What comes next after an object's first key, or after the end of an object with no member.
fn begin_member(alloc: Global, token: Token) -> Next
    requires { IsSome (step (first_key []) token) }
    ensures { (frames : List Kept) → step (first_key (frames_of frames)) token ≡ Some (reading_of result frames) }
{
    match token {
        Token::CloseObject => Next::After(Json::Object(Members::new(alloc))),
        Token::Str(key) => Next::Colon(Members::new(alloc), key),
        _ => unreachable!(),
    }
}

/// What comes next after the token after a value.
fn end_value(value: Json, frames: &mut Vec<Frame>, token: Token) -> Result<Next, Memory>
    requires { IsSome (step (after value (frames_of frames.old.items)) token) }
    ensures { IfOk result (λ then. step (after value (frames_of frames.old.items)) token
        ≡ Some (reading_of then frames.new.items)) }
{
    match frames.pop() {
        Some(Frame::List(items)) => end_item(items, value, frames, token),
        Some(Frame::Object(members, key)) => end_member(members, Member { key, value }, token),
        None => unreachable!(),
    }
}

/// What comes next after the token after an item of a list.
fn end_item(
    mut items: Items,
    item: Json,
    frames: &mut Vec<Frame>,
    token: Token,
) -> Result<Next, Memory>
    requires { IsSome (step (after item (in_list items ∷ [])) token) }
    ensures { IfOk result (λ then. step (after item (in_list items ∷ frames_of frames.old.items)) token
        ≡ Some (reading_of then frames.new.items)) }
{
    items.push(item)?;
    match token {
        Token::Comma => {
            frames.push(Frame::List(items))?;
            Ok(Next::Value)
        }
        Token::CloseList => Ok(Next::After(Json::List(items))),
        _ => unreachable!(),
    }
}

/// What comes next after the token after a member of an object.
fn end_member(mut members: Members, member: Member, token: Token) -> Result<Next, Memory>
    requires { IsSome (step (after member.value (in_object members member.key ∷ [])) token) }
    ensures { IfOk result (λ then. (frames : List Kept)
        → step (after member.value (in_object members member.key ∷ frames_of frames)) token
        ≡ Some (reading_of then frames)) }
{
    members.push(member)?;
    match token {
        Token::Comma => Ok(Next::Key(members)),
        Token::CloseObject => Ok(Next::After(Json::Object(members))),
        _ => unreachable!(),
    }
}
