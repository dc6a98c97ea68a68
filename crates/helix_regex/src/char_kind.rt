//! The kind of a character, outside and inside of escapes, counts and classes.

ghost use Rattle.std.specs.Prelude.{◌≡◌, IsTrue};
ghost use Rattle.helix_base.specs.Digits.{is_digit};
ghost use Rattle.helix_regex.specs.Characters.{is_character, is_literal, is_letter, is_punct, is_set_letter, is_class_char};
ghost use Rattle.helix_regex.specs.Inner.Scan.{char_kind, escape_kind, count_kind, class_kind};

use helix_base::is_digit;

/// A character outside of escapes, counts and classes.
#[derive(Clone, Copy, Debug)]
pub enum CharKind {
    Literal,
    Dot,
    Backslash,
    Caret,
    Dollar,
    Bar,
    Open,
    Close,
    Bracket,
    Star,
    Plus,
    Question,
    Brace,
    Other,
}

/// A character after a backslash.
#[derive(Clone, Copy, Debug)]
pub enum EscapeKind {
    Itself,
    Set,
    Other,
}

/// A character in a count.
#[derive(Clone, Copy, Debug)]
pub enum CountKind {
    Digit,
    Comma,
    Close,
    Other,
}

/// A character in a class.
#[derive(Clone, Copy, Debug)]
pub enum ClassKind {
    Plain,
    Backslash,
    Dash,
    Close,
    Other,
}

pub fn char_kind_of(code: u32) -> CharKind
    requires { IsTrue (is_character code) }
    ensures { result ≡ char_kind code }
{
    if code == '\\' as u32 {
        CharKind::Backslash
    } else if code == '^' as u32 {
        CharKind::Caret
    } else if code == '$' as u32 {
        CharKind::Dollar
    } else if code == '.' as u32 {
        CharKind::Dot
    } else if code == '|' as u32 {
        CharKind::Bar
    } else if code == '?' as u32 {
        CharKind::Question
    } else if code == '*' as u32 {
        CharKind::Star
    } else if code == '+' as u32 {
        CharKind::Plus
    } else if code == '(' as u32 {
        CharKind::Open
    } else if code == ')' as u32 {
        CharKind::Close
    } else if code == '[' as u32 {
        CharKind::Bracket
    } else if code == '{' as u32 {
        CharKind::Brace
    } else {
        CharKind::Literal
    }
}

pub fn escape_kind_of(code: u32) -> EscapeKind
    ensures { result ≡ escape_kind code }
{
    if is_punct(code) {
        EscapeKind::Itself
    } else if is_set_letter(code) {
        EscapeKind::Set
    } else {
        EscapeKind::Other
    }
}

pub fn count_kind_of(code: u32) -> CountKind
    ensures { result ≡ count_kind code }
{
    if is_digit(code) {
        CountKind::Digit
    } else if code == ',' as u32 {
        CountKind::Comma
    } else if code == '}' as u32 {
        CountKind::Close
    } else {
        CountKind::Other
    }
}

pub fn class_kind_of(code: u32) -> ClassKind
    requires { IsTrue (is_character code) }
    ensures { result ≡ class_kind code }
{
    if code == '\\' as u32 {
        ClassKind::Backslash
    } else if code == '-' as u32 {
        ClassKind::Dash
    } else if code == ']' as u32 {
        ClassKind::Close
    } else if code == '[' as u32 {
        ClassKind::Other
    } else {
        ClassKind::Plain
    }
}

fn is_letter(code: u32) -> bool
    ensures { result ≡ is_letter code }
{
    'A' as u32 <= code && code <= 'Z' as u32 || 'a' as u32 <= code && code <= 'z' as u32
}

/// Whether an ASCII character means itself after a backslash.
fn is_punct(code: u32) -> bool
    ensures { result ≡ is_punct code }
{
    '!' as u32 <= code && code <= '~' as u32 && !(is_letter(code) || is_digit(code))
}

/// Whether a letter after a backslash names a set.
fn is_set_letter(code: u32) -> bool
    ensures { result ≡ is_set_letter code }
{
    code == 'd' as u32
        || code == 'w' as u32
        || code == 's' as u32
        || code == 'D' as u32
        || code == 'W' as u32
        || code == 'S' as u32
}
