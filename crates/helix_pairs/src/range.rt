//! Ranges of values.

/// The values of two related fields, from the least to the greatest.
#[derive(Clone, Copy, Debug)]
pub struct ValueRange {
    pub low: i128,
    pub high: i128,
}
