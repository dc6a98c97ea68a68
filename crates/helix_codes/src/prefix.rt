//! What is kept of the characters that have been read.

/// The first characters of a word: their number, and the last digit of their sum. The sum of an ISIN depends on the
/// number of digits that follow; that of a SEDOL or a CUSIP doesn't, and both are the same there.
#[derive(PartialEq, Eq, Hash, Drop)]
pub struct Prefix {
    /// How many characters.
    pub count: usize,
    /// The last digit of the sum where an even number of digits follows.
    pub even: u64,
    /// The last digit of the sum where an odd number of digits follows.
    pub odd: u64,
}
