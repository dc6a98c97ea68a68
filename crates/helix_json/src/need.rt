//! Which token may come next, whatever the values are.

ghost use Rattle.std.specs.Prelude.{◌≡◌};
ghost use Rattle.helix_json.specs.Inner.Need.{kind_of_token, need_step};

use crate::token::Token;

/// What comes next.
#[derive(Clone, Copy, Debug)]
pub enum Need {
    Value,
    FirstItem,
    FirstKey,
    Key,
    Colon,
    After,
}

/// A list or an object that is open.
#[derive(Clone, Copy, Debug)]
pub enum Container {
    List,
    Object,
}

/// What a token is to the grammar.
#[derive(Clone, Copy, Debug)]
pub enum TokenKind {
    OpenList,
    CloseList,
    OpenObject,
    CloseObject,
    Comma,
    Colon,
    Scalar,
    Str,
}

/// What a token does: what comes next, and the container that it opens or closes.
#[derive(Clone, Copy, Debug)]
pub enum Advance {
    Refuse,
    Stay(Need),
    Open(Need, Container),
    Close,
}

/// What a token does after others, inside of the innermost container.
pub fn next_need(need: Need, innermost: Option<Container>, kind: TokenKind) -> Advance
    ensures { result ≡ need_step need innermost kind }
{
    match (need, kind) {
        (Need::FirstItem, TokenKind::CloseList) => Advance::Close,
        (Need::Value | Need::FirstItem, TokenKind::Scalar | TokenKind::Str) => Advance::Stay(
            Need::After,
        ),
        (Need::Value | Need::FirstItem, TokenKind::OpenList) => Advance::Open(
            Need::FirstItem,
            Container::List,
        ),
        (Need::Value | Need::FirstItem, TokenKind::OpenObject) => Advance::Open(
            Need::FirstKey,
            Container::Object,
        ),
        (Need::FirstKey, TokenKind::CloseObject) => Advance::Close,
        (Need::FirstKey | Need::Key, TokenKind::Str) => Advance::Stay(Need::Colon),
        (Need::Colon, TokenKind::Colon) => Advance::Stay(Need::Value),
        (Need::After, _) => after_value(innermost, kind),
        _ => Advance::Refuse,
    }
}

/// What a token does after a value.
fn after_value(innermost: Option<Container>, kind: TokenKind) -> Advance
    ensures { result ≡ need_step Need.After innermost kind }
{
    match (innermost, kind) {
        (Some(Container::List), TokenKind::Comma) => Advance::Stay(Need::Value),
        (Some(Container::List), TokenKind::CloseList) => Advance::Close,
        (Some(Container::Object), TokenKind::Comma) => Advance::Stay(Need::Key),
        (Some(Container::Object), TokenKind::CloseObject) => Advance::Close,
        _ => Advance::Refuse,
    }
}
