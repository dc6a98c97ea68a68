//! The tokens that a character ends.

ghost use Rattle.std.specs.Prelude.{◌≡◌, ◌++◌, IsTrue, OnOk};
ghost use Rattle.helix_regex.specs.Characters.{is_character};
ghost use Rattle.helix_regex.specs.Inner.Scan.{char_kind, escape_kind, count_kind, class_kind};
ghost use Rattle.helix_regex.specs.Inner.Lexing.{emitted, outside_token, escape_token, count_token_of, item_tokens_of, class_escape_token, class_emitted, option_list};

use crate::char_kind::{
    CharKind, ClassKind, CountKind, EscapeKind, char_kind_of, class_kind_of, count_kind_of,
    escape_kind_of,
};
use crate::lexer::Lexer;
use crate::scanner_state::{ClassState, ScannerState};
use crate::token::Token;
use std::alloc::AllocError;

/// Appends the tokens that a character ends.
pub fn push_tokens(
    tokens: &mut Vec<Token>,
    lexer: Lexer,
    code: u32,
    at: usize,
) -> Result<(), AllocError>
    requires { IsTrue (is_character code) }
    ensures { OnOk result (tokens.new.items ≡ tokens.old.items ++ emitted lexer code at) }
{
    match lexer.scanner_state {
        ScannerState::Marked => Ok(()),
        ScannerState::Escape => push_some(tokens, escape_token(escape_kind_of(code), code)),
        ScannerState::CountOpened
        | ScannerState::CountLeast
        | ScannerState::CountComma
        | ScannerState::CountMost => push_some(tokens, count_token(lexer, count_kind_of(code))),
        ScannerState::Class(class, _) => push_in_class(tokens, class, lexer, code),
        ScannerState::Ready
        | ScannerState::Opened
        | ScannerState::Atom
        | ScannerState::Quantified => push_some(
            tokens,
            outside_token(lexer.scanner_state, char_kind_of(code), code, at),
        ),
    }
}

fn push_some(tokens: &mut Vec<Token>, token: Option<Token>) -> Result<(), AllocError>
    ensures { OnOk result (tokens.new.items ≡ tokens.old.items ++ option_list token) }
{
    match token {
        Some(token) => {
            tokens.push(token)?;
            Ok(())
        }
        None => Ok(()),
    }
}

fn outside_token(
    scanner_state: ScannerState,
    char_kind: CharKind,
    code: u32,
    at: usize,
) -> Option<Token>
    ensures { result ≡ outside_token scanner_state char_kind code at }
{
    match (scanner_state, char_kind) {
        (_, CharKind::Literal) => Some(Token::Literal(code)),
        (_, CharKind::Dot) => Some(Token::Dot),
        (_, CharKind::Caret) => Some(Token::Caret(at)),
        (_, CharKind::Dollar) => Some(Token::Dollar(at)),
        (_, CharKind::Bar) => Some(Token::Bar(at)),
        (_, CharKind::Open) => Some(Token::Open),
        (_, CharKind::Close) => Some(Token::Close),
        (_, CharKind::Bracket) => Some(Token::ClassStart),
        (ScannerState::Atom, CharKind::Star) => Some(Token::Repeat(0, None, at)),
        (ScannerState::Atom, CharKind::Plus) => Some(Token::Repeat(1, None, at)),
        (ScannerState::Atom, CharKind::Question) => Some(Token::Repeat(0, Some(1), at)),
        _ => None,
    }
}

fn escape_token(char_kind: EscapeKind, code: u32) -> Option<Token>
    ensures { result ≡ escape_token char_kind code }
{
    match char_kind {
        EscapeKind::Itself => Some(Token::Literal(code)),
        EscapeKind::Set => Some(Token::Set(code)),
        EscapeKind::Other => None,
    }
}

fn count_token(lexer: Lexer, char_kind: CountKind) -> Option<Token>
    ensures { result ≡ count_token_of lexer char_kind }
{
    match (lexer.scanner_state, char_kind) {
        (ScannerState::CountLeast, CountKind::Close) => Some(Token::Repeat(
            lexer.least,
            Some(lexer.least),
            lexer.at,
        )),
        (ScannerState::CountComma, CountKind::Close) => Some(Token::Repeat(
            lexer.least,
            None,
            lexer.at,
        )),
        (ScannerState::CountMost, CountKind::Close) => Some(Token::Repeat(
            lexer.least,
            Some(lexer.most),
            lexer.at,
        )),
        _ => None,
    }
}

fn push_in_class(
    tokens: &mut Vec<Token>,
    class: ClassState,
    lexer: Lexer,
    code: u32,
) -> Result<(), AllocError>
    requires { IsTrue (is_character code) }
    ensures { OnOk result (tokens.new.items ≡ tokens.old.items ++ class_emitted class lexer code) }
{
    match class {
        ClassState::Opened => {
            if code == '^' as u32 {
                push_some(tokens, Some(Token::Exclude))
            } else {
                push_items(tokens, class, class_kind_of(code), lexer, code)
            }
        }
        ClassState::Escape | ClassState::FarEscape => push_some(
            tokens,
            class_escape_token(class, escape_kind_of(code), lexer, code),
        ),
        _ => push_items(tokens, class, class_kind_of(code), lexer, code),
    }
}

fn class_escape_token(
    class: ClassState,
    char_kind: EscapeKind,
    lexer: Lexer,
    code: u32,
) -> Option<Token>
    ensures { result ≡ class_escape_token class char_kind lexer code }
{
    match (class, char_kind) {
        (ClassState::Escape, EscapeKind::Set) => Some(Token::SetItem(code)),
        (ClassState::FarEscape, EscapeKind::Itself) => Some(Token::Range(
            lexer.first,
            code,
            lexer.at,
        )),
        _ => None,
    }
}

fn push_items(
    tokens: &mut Vec<Token>,
    class: ClassState,
    char_kind: ClassKind,
    lexer: Lexer,
    code: u32,
) -> Result<(), AllocError>
    ensures { OnOk result (tokens.new.items ≡ tokens.old.items ++ item_tokens_of class char_kind lexer code) }
{
    match (class, char_kind) {
        (ClassState::Opened | ClassState::First, ClassKind::Dash) => push_some(
            tokens,
            Some(Token::Item('-' as u32)),
        ),
        (ClassState::Items, ClassKind::Close) => push_some(tokens, Some(Token::ClassEnd)),
        (ClassState::One, ClassKind::Plain | ClassKind::Backslash) => push_some(
            tokens,
            Some(Token::Item(lexer.first)),
        ),
        (ClassState::One, ClassKind::Close) => {
            tokens.push(Token::Item(lexer.first))?;
            push_some(tokens, Some(Token::ClassEnd))
        }
        (ClassState::Dash, ClassKind::Plain) => push_some(
            tokens,
            Some(Token::Range(lexer.first, code, lexer.at)),
        ),
        (ClassState::Dash, ClassKind::Close) => {
            tokens.push(Token::Item(lexer.first))?;
            tokens.push(Token::Item('-' as u32))?;
            push_some(tokens, Some(Token::ClassEnd))
        }
        (ClassState::Last, ClassKind::Close) => {
            tokens.push(Token::Item('-' as u32))?;
            push_some(tokens, Some(Token::ClassEnd))
        }
        _ => Ok(()),
    }
}
