//! How a scanner goes on after each character.

ghost use Rattle.std.specs.Prelude.{◌≡◌, IsTrue};
ghost use Rattle.helix_regex.specs.Characters.{is_character};
ghost use Rattle.helix_regex.specs.Inner.Scan.{stay_if, scanner_step, escape_kind, count_kind, settled_advance, opened_advance, atom_advance, quantifier_advance, escape_advance, count_advance};

use crate::char_kind::{
    CharKind, CountKind, EscapeKind, char_kind_of, count_kind_of, escape_kind_of,
};
use crate::class_state::next_in_class;

/// The state between two characters, named for what was read last.
#[derive(Clone, Copy, Debug)]
pub enum ScannerState {
    /// Nothing that a quantifier could repeat.
    Ready,
    /// The `(` of a group.
    Opened,
    /// The `(?` of a group.
    Marked,
    /// A backslash.
    Escape,
    /// An atom.
    Atom,
    /// A quantifier, without a `?` after it.
    Quantified,
    /// The `{` of a count.
    CountOpened,
    /// Digits of a count's first number.
    CountLeast,
    /// The comma of a count.
    CountComma,
    /// Digits of a count's second number.
    CountMost,
    /// A part of a class, and its last character.
    Class(ClassState, u32),
}

/// The state in a class.
#[derive(Clone, Copy, Debug)]
pub enum ClassState {
    /// The `[`.
    Opened,
    /// The `[^`.
    First,
    /// An item that begins no range.
    Items,
    /// A single character, which may begin a range.
    One,
    /// A single character and a `-`.
    Dash,
    /// A `-` that has to be the last item.
    Last,
    /// A backslash that begins an item.
    Escape,
    /// A backslash that begins the last end of a range.
    FarEscape,
}

/// What a character does: it is refused, or leads on, and may open or close a group.
#[derive(Clone, Copy, Debug)]
pub enum Advance {
    Refuse,
    Stay(ScannerState),
    Open(ScannerState),
    Close(ScannerState),
}

/// What a character does after a scanner state.
pub fn next_state(scanner_state: ScannerState, code: u32) -> Advance
    requires { IsTrue (is_character code) }
    ensures { result ≡ scanner_step scanner_state code }
{
    match scanner_state {
        ScannerState::Marked => stay_if(code == ':' as u32, ScannerState::Ready),
        ScannerState::Escape => next_in_escape(code),
        ScannerState::CountOpened
        | ScannerState::CountLeast
        | ScannerState::CountComma
        | ScannerState::CountMost => next_in_count(scanner_state, code),
        ScannerState::Class(class, before) => next_in_class(class, before, code),
        ScannerState::Ready => next_settled(char_kind_of(code)),
        ScannerState::Opened => next_opened(char_kind_of(code)),
        ScannerState::Atom => next_after_atom(char_kind_of(code)),
        ScannerState::Quantified => next_after_quantifier(char_kind_of(code)),
    }
}

fn stay_if(test: bool, scanner_state: ScannerState) -> Advance
    ensures { result ≡ stay_if test scanner_state }
{
    if test {
        Advance::Stay(scanner_state)
    } else {
        Advance::Refuse
    }
}

/// After what no quantifier can repeat.
fn next_settled(char_kind: CharKind) -> Advance
    ensures { result ≡ settled_advance char_kind }
{
    match char_kind {
        CharKind::Literal | CharKind::Dot => Advance::Stay(ScannerState::Atom),
        CharKind::Backslash => Advance::Stay(ScannerState::Escape),
        CharKind::Caret | CharKind::Dollar | CharKind::Bar => Advance::Stay(ScannerState::Ready),
        CharKind::Open => Advance::Open(ScannerState::Opened),
        CharKind::Close => Advance::Close(ScannerState::Atom),
        CharKind::Bracket => Advance::Stay(ScannerState::Class(ClassState::Opened, '[' as u32)),
        CharKind::Star | CharKind::Plus | CharKind::Question | CharKind::Brace | CharKind::Other =>
            Advance::Refuse,
    }
}

fn next_opened(char_kind: CharKind) -> Advance
    ensures { result ≡ opened_advance char_kind }
{
    match char_kind {
        CharKind::Question => Advance::Stay(ScannerState::Marked),
        _ => next_settled(char_kind),
    }
}

fn next_after_atom(char_kind: CharKind) -> Advance
    ensures { result ≡ atom_advance char_kind }
{
    match char_kind {
        CharKind::Star | CharKind::Plus | CharKind::Question => Advance::Stay(
            ScannerState::Quantified,
        ),
        CharKind::Brace => Advance::Stay(ScannerState::CountOpened),
        _ => next_settled(char_kind),
    }
}

fn next_after_quantifier(char_kind: CharKind) -> Advance
    ensures { result ≡ quantifier_advance char_kind }
{
    match char_kind {
        CharKind::Question => Advance::Stay(ScannerState::Ready),
        _ => next_settled(char_kind),
    }
}

fn next_in_escape(code: u32) -> Advance
    ensures { result ≡ escape_advance (escape_kind code) }
{
    match escape_kind_of(code) {
        EscapeKind::Itself | EscapeKind::Set => Advance::Stay(ScannerState::Atom),
        EscapeKind::Other => Advance::Refuse,
    }
}

fn next_in_count(scanner_state: ScannerState, code: u32) -> Advance
    ensures { result ≡ count_advance scanner_state (count_kind code) }
{
    match (scanner_state, count_kind_of(code)) {
        (ScannerState::CountOpened | ScannerState::CountLeast, CountKind::Digit) => Advance::Stay(
            ScannerState::CountLeast,
        ),
        (ScannerState::CountComma | ScannerState::CountMost, CountKind::Digit) => Advance::Stay(
            ScannerState::CountMost,
        ),
        (ScannerState::CountLeast, CountKind::Comma) => Advance::Stay(ScannerState::CountComma),
        (
            ScannerState::CountLeast | ScannerState::CountComma | ScannerState::CountMost,
            CountKind::Close,
        ) => Advance::Stay(ScannerState::Quantified),
        _ => Advance::Refuse,
    }
}
