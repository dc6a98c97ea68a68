//! An expression with its anchors.

ghost use Rattle.std.specs.Prelude.{◌≡◌, IfOk};

use crate::expr::Expr;
use helix_base::Memory;
use std::alloc::Global;

/// An expression, and whether a match that a word contains has to begin at the word's start or
/// to end at its end.
#[derive(Debug, Drop)]
pub struct Regex {
    pub expr: Expr,
    pub at_start: bool,
    pub at_end: bool,
}

impl Regex {
    pub fn copy(&self, alloc: Global) -> Result<Regex, Memory>
        ensures { IfOk result (λ copy. copy ≡ self.now) }
    {
        Ok(Regex {
            expr: self.expr.copy(alloc)?,
            at_start: self.at_start,
            at_end: self.at_end,
        })
    }
}
