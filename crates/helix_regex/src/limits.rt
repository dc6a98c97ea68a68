//! The limits of a pattern.

/// Maximum number in a count.
pub const MAX_COUNT: u32 = 1_000;

/// Maximum number of positions.
pub const MAX_POSITIONS: u32 = 5_000;

/// Maximum nesting of groups.
pub const MAX_DEPTH: usize = 64;
