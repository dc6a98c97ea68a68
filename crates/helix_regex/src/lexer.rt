//! The tokens of a text that is in the grammar.

ghost use Rattle.std.specs.Prelude.{◌≡◌, ◌+◌, ◌-◌, ◌*◌, ◌++◌, ◌<◌, min, IsTrue, OnOk, IfOk, ℕ};
ghost use Rattle.helix_regex.specs.Characters.{is_character};
ghost use Rattle.helix_regex.specs.Pattern.{Pattern, Writes};
ghost use Rattle.helix_regex.specs.Faults.{AreCharacters};
ghost use Rattle.helix_regex.specs.Inner.Tokens.{tokens};
ghost use Rattle.helix_regex.specs.Inner.Scan.{count_kind, scanner_step};
ghost use Rattle.helix_regex.specs.Inner.Lexing.{lexer_step, state_after, keeps_place, begins_one, next_least, next_most, with_digit};

use crate::char_kind::{CountKind, count_kind_of};
use crate::emit::push_tokens;
use crate::limits::MAX_COUNT;
use crate::scanner_state::{Advance, ClassState, ScannerState, next_state};
use crate::token::Token;
use std::alloc::{AllocError, Global};

/// The scanner state, and of the token that is being read, its offset, the first end of a range, and the numbers.
#[derive(Clone, Copy, Debug)]
pub struct Lexer {
    pub scanner_state: ScannerState,
    pub at: usize,
    pub first: u32,
    pub least: u32,
    pub most: u32,
}

impl Lexer {
    /// The lexer after one more character.
    pub fn next(self, code: u32, at: usize) -> Lexer
        requires { IsTrue (is_character code) }
        ensures { result ≡ lexer_step self code at }
    {
        let scanner_state = state_after(self.scanner_state, code);
        Lexer {
            scanner_state,
            at: if keeps_place(self.scanner_state, scanner_state) {
                self.at
            } else {
                at
            },
            first: if begins_one(scanner_state) {
                code
            } else {
                self.first
            },
            least: next_least(self, code),
            most: next_most(self, code),
        }
    }
}

fn state_after(scanner_state: ScannerState, code: u32) -> ScannerState
    requires { IsTrue (is_character code) }
    ensures { result ≡ state_after scanner_state (scanner_step scanner_state code) }
{
    match next_state(scanner_state, code) {
        Advance::Refuse => scanner_state,
        Advance::Stay(next) | Advance::Open(next) | Advance::Close(next) => next,
    }
}

/// Whether a token that began earlier goes on.
fn keeps_place(scanner_state: ScannerState, next: ScannerState) -> bool
    ensures { result ≡ keeps_place scanner_state next }
{
    match (scanner_state, next) {
        (_, ScannerState::Class(ClassState::Dash, _)) => true,
        (
            ScannerState::CountOpened
            | ScannerState::CountLeast
            | ScannerState::CountComma
            | ScannerState::CountMost,
            _,
        ) => true,
        (
            ScannerState::Class(ClassState::Escape | ClassState::Dash | ClassState::FarEscape, _),
            _,
        ) => true,
        _ => false,
    }
}

fn begins_one(scanner_state: ScannerState) -> bool
    ensures { result ≡ begins_one scanner_state }
{
    match scanner_state {
        ScannerState::Class(ClassState::One, _) => true,
        _ => false,
    }
}

/// A number with one more digit, or 1,001 where it is above 1,000.
fn with_digit(number: u32, code: u32) -> u32
    ensures { result ≡ with_digit number code }
{
    (number as u64 * 10 + code.saturating_sub('0' as u32) as u64).min(MAX_COUNT as u64 + 1) as u32
}

fn next_least(lexer: Lexer, code: u32) -> u32
    ensures { result ≡ next_least lexer.scanner_state lexer.least code }
{
    match lexer.scanner_state {
        ScannerState::CountOpened => with_digit(0, code),
        ScannerState::CountLeast => match count_kind_of(code) {
            CountKind::Digit => with_digit(lexer.least, code),
            _ => lexer.least,
        },
        _ => lexer.least,
    }
}

fn next_most(lexer: Lexer, code: u32) -> u32
    ensures { result ≡ next_most lexer.scanner_state lexer.most code }
{
    match lexer.scanner_state {
        ScannerState::CountComma => with_digit(0, code),
        ScannerState::CountMost => match count_kind_of(code) {
            CountKind::Digit => with_digit(lexer.most, code),
            _ => lexer.most,
        },
        _ => lexer.most,
    }
}

/// The tokens of a text that is in the grammar.
pub fn tokens_of(alloc: Global, codes: &[u32]) -> Result<Vec<Token>, AllocError>
    requires { AreCharacters codes.now }
    ensures { IfOk result (λ all. (pattern : Pattern) → Writes codes.now pattern → all.items ≡ tokens 0 pattern) }
{
    let mut all = Vec::new(alloc);
    let mut lexer = Lexer {
        scanner_state: ScannerState::Ready,
        at: 0,
        first: 0,
        least: 0,
        most: 0,
    };
    for (i, code) in codes.iter().enumerate() {
        push_tokens(&mut all, lexer, *code, i)?;
        lexer = lexer.next(*code, i);
    }
    Ok(all)
}
