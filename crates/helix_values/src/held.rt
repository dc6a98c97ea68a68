//! What a slot holds beside the characters of its text.

/// Null or a value; the characters of a text lie in the slot.
#[derive(Clone, Copy, Debug)]
pub(crate) enum Held {
    Null,
    Bool(bool),
    Number(i128),
    Moment(i64),
    Text,
}
