//! What an asker keeps near a value.

use helix_words::Trail;

/// What is kept near the value that a question answered, so that the question for the next one begins there. It
/// belongs to who asks, so that a domain can be shared; [`Domain::near`](crate::Domain::near) makes room for it.
#[derive(Debug, Drop)]
pub enum Near {
    /// The value's index in the list of all values.
    Listed(usize),
    /// Nothing: a number or a moment tells the next one.
    OnGrid,
    /// The value's word, with the states along it.
    Spelt(Trail),
}
