//! The tokens of a text, or its syntax error.

ghost use Rattle.std.specs.Prelude.{◌≡◌, ◌<◌, length, slice_index, IfOk, IsTrue};
ghost use Rattle.std.specs.Str.{all_scalars};
ghost use Rattle.helix_json.specs.declared.class.Class.TheVariants as class_is;
ghost use Rattle.helix_json.specs.Inner.Lexer.{class, mark_token, word_token};
ghost use Rattle.helix_json.specs.Inner.Need.{kind_of_token};
ghost use Rattle.helix_json.specs.Inner.Progress.{HoldsSoFarAt, GoesOn};
ghost use Rattle.helix_json.specs.Inner.Scanned.{IsScan};

use crate::class::{Class, Mark, Word, class_of};
use crate::digits::{NumberState, is_end_of_number, kind_of_code, next_number_state};
use crate::lexeme::{StringRead, letters_of, read_letters, read_number, read_string, text_of};
use crate::need::TokenKind;
use crate::progress::{Progress, Step};
use crate::scanned::{Scan, Scanned};
use crate::token::Token;
use helix_base::Memory;
use std::alloc::Global;

/// The tokens of a text that spells a value, or its syntax error. On `Err`, memory ran out.
pub fn scan(alloc: Global, codes: &[u32]) -> Result<Scan, Memory>
    requires { IsTrue (all_scalars codes.now) }
    ensures { IfOk result (IsScan codes.now) }
{
    let mut progress = Progress::new(alloc);
    let mut at = 0;
    while at < codes.len() {
        match read(alloc, codes, at, &mut progress)? {
            Step::On(next) => at = next,
            Step::SyntaxError(count) => return Ok(Scan::SyntaxError(count)),
        }
    }
    if progress.is_whole() {
        Ok(Scan::Tokens(Scanned {
            tokens: progress.tokens,
            offsets: progress.offsets,
        }))
    } else {
        Ok(Scan::SyntaxError(codes.len()))
    }
}

/// Reads the token or the blank at an offset.
fn read(alloc: Global, codes: &[u32], at: usize, progress: &mut Progress) -> Result<Step, Memory>
    requires scalars { IsTrue (all_scalars codes.now) }
    requires within { at < length codes.now }
    requires holds { HoldsSoFarAt codes.now at progress.old }
    ensures { IfOk result (GoesOn codes.now at progress.new) }
{
    match class_of(codes[at]) {
        Class::Blank => Ok(Step::On(at + 1)),
        Class::Mark(mark) => {
            if !progress.nest.allow(kind_of_mark(mark))? {
                return Ok(Step::SyntaxError(at));
            }
            progress.push(token_of_mark(mark), at)?;
            Ok(Step::On(at + 1))
        }
        Class::Quote => take_string(alloc, codes, at, progress),
        Class::Word(word) => take_word(codes, at, word, progress),
        Class::Other => take_number(alloc, codes, at, progress),
    }
}

fn take_string(
    alloc: Global,
    codes: &[u32],
    at: usize,
    progress: &mut Progress,
) -> Result<Step, Memory>
    requires scalars { IsTrue (all_scalars codes.now) }
    requires within { at < length codes.now }
    requires holds { HoldsSoFarAt codes.now at progress.old }
    requires class_is { class (slice_index codes.now at) ≡ class_is.Quote }
    ensures { IfOk result (GoesOn codes.now at progress.new) }
{
    if !progress.nest.allow(TokenKind::Str)? {
        return Ok(Step::SyntaxError(at));
    }
    match read_string(alloc, codes, at + 1)? {
        StringRead::Stops(count) => Ok(Step::SyntaxError(count)),
        StringRead::Closes(text, end) => {
            progress.push(Token::Str(text), at)?;
            Ok(Step::On(end))
        }
    }
}

fn take_word(codes: &[u32], at: usize, word: Word, progress: &mut Progress) -> Result<Step, Memory>
    requires within { at < length codes.now }
    requires holds { HoldsSoFarAt codes.now at progress.old }
    requires class_is { class (slice_index codes.now at) ≡ (class_is.Word word) }
    ensures { IfOk result (GoesOn codes.now at progress.new) }
{
    if !progress.nest.allow(TokenKind::Scalar)? {
        return Ok(Step::SyntaxError(at));
    }
    let letters = letters_of(word);
    let count = read_letters(codes, at + 1, letters);
    if count < letters.len() {
        return Ok(Step::SyntaxError(at + 1 + count));
    }
    progress.push(token_of_word(word), at)?;
    Ok(Step::On(at + 1 + count))
}

fn take_number(
    alloc: Global,
    codes: &[u32],
    at: usize,
    progress: &mut Progress,
) -> Result<Step, Memory>
    requires scalars { IsTrue (all_scalars codes.now) }
    requires within { at < length codes.now }
    requires holds { HoldsSoFarAt codes.now at progress.old }
    requires class_is { class (slice_index codes.now at) ≡ class_is.Other }
    ensures { IfOk result (GoesOn codes.now at progress.new) }
{
    let Some(first) = next_number_state(NumberState::Nothing, kind_of_code(codes[at])) else {
        return Ok(Step::SyntaxError(at));
    };
    if !progress.nest.allow(TokenKind::Scalar)? {
        return Ok(Step::SyntaxError(at));
    }
    let (state, end) = read_number(codes, at + 1, first);
    if !is_end_of_number(state) {
        return Ok(Step::SyntaxError(end));
    }
    progress.push(Token::Number(text_of(alloc, &codes[at..end])?), at)?;
    Ok(Step::On(end))
}

fn kind_of_mark(mark: Mark) -> TokenKind
    ensures { result ≡ kind_of_token (mark_token mark) }
{
    match mark {
        Mark::OpenList => TokenKind::OpenList,
        Mark::CloseList => TokenKind::CloseList,
        Mark::OpenObject => TokenKind::OpenObject,
        Mark::CloseObject => TokenKind::CloseObject,
        Mark::Comma => TokenKind::Comma,
        Mark::Colon => TokenKind::Colon,
    }
}

fn token_of_mark(mark: Mark) -> Token
    ensures { result ≡ mark_token mark }
{
    match mark {
        Mark::OpenList => Token::OpenList,
        Mark::CloseList => Token::CloseList,
        Mark::OpenObject => Token::OpenObject,
        Mark::CloseObject => Token::CloseObject,
        Mark::Comma => Token::Comma,
        Mark::Colon => Token::Colon,
    }
}

fn token_of_word(word: Word) -> Token
    ensures { result ≡ word_token word }
{
    match word {
        Word::Null => Token::Null,
        Word::True => Token::True,
        Word::False => Token::False,
    }
}
