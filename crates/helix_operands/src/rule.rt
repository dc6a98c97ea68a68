//! The rules of operands.

/// A rule of operands: `specs/Rules.antt` says where each is broken.
#[derive(Clone, Copy, Debug, PartialEq, Eq)]
pub enum OperandRule {
    /// S11: the JSON type of the operand and of each member of its list.
    Type,
    /// S12: values are of the field's kind, and bounds are numbers or moments.
    Value,
    /// S13: a list has 1 to 10,000 members.
    Size,
    /// S14: a grid is one of the ladder.
    Grid,
    /// S15: a length is a whole number from 0 to 1,000.
    Length,
    /// S16: a pattern breaks no rule of patterns.
    Pattern,
}
