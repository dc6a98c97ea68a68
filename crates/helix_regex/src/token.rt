//! The tokens of a pattern.

/// What a part of a pattern says. A `?` after a quantifier says nothing, and a class is its items between two marks. A
/// token with a rule has the offset of its first character.
#[derive(Clone, Copy, Debug)]
pub enum Token {
    Bar(usize),
    Caret(usize),
    Dollar(usize),
    /// `(` or `(?:`.
    Open,
    Close,
    /// A character that means itself.
    Literal(u32),
    Dot,
    /// `\` and a letter that names a set.
    Set(u32),
    ClassStart,
    /// `^` after the `[`.
    Exclude,
    /// A single character of a class.
    Item(u32),
    /// A range of a class, from its first to its last character.
    Range(u32, u32, usize),
    /// A set as an item of a class.
    SetItem(u32),
    ClassEnd,
    /// A quantifier, as the least and the greatest number. A number above 1,000 is 1,001.
    Repeat(u32, Option<u32>, usize),
}
