//! What a character between tokens begins.

ghost use Rattle.std.specs.Prelude.{◌≡◌};
ghost use Rattle.helix_json.specs.Inner.Lexer.{class};

/// A structural character.
#[derive(Clone, Copy, Debug)]
pub enum Mark {
    OpenList,
    CloseList,
    OpenObject,
    CloseObject,
    Comma,
    Colon,
}

/// A literal name.
#[derive(Clone, Copy, Debug)]
pub enum Word {
    Null,
    True,
    False,
}

/// What a character between tokens is.
#[derive(Clone, Copy, Debug)]
pub enum Class {
    Blank,
    Mark(Mark),
    Quote,
    Word(Word),
    Other,
}

pub fn class_of(code: u32) -> Class
    ensures { result ≡ class code }
{
    if code == ' ' as u32 || code == '\t' as u32 || code == '\n' as u32 || code == '\r' as u32 {
        Class::Blank
    } else if code == '[' as u32 {
        Class::Mark(Mark::OpenList)
    } else if code == ']' as u32 {
        Class::Mark(Mark::CloseList)
    } else if code == '{' as u32 {
        Class::Mark(Mark::OpenObject)
    } else if code == '}' as u32 {
        Class::Mark(Mark::CloseObject)
    } else if code == ',' as u32 {
        Class::Mark(Mark::Comma)
    } else if code == ':' as u32 {
        Class::Mark(Mark::Colon)
    } else if code == '"' as u32 {
        Class::Quote
    } else if code == 'n' as u32 {
        Class::Word(Word::Null)
    } else if code == 't' as u32 {
        Class::Word(Word::True)
    } else if code == 'f' as u32 {
        Class::Word(Word::False)
    } else {
        Class::Other
    }
}
