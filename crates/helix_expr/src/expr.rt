//! Expressions and their copies.

ghost use Rattle.std.specs.Prelude.{◌≡◌, IfOk};

use helix_base::{List, Memory};
use sqlite_items::{Boxed, Items};
use std::alloc::Global;

/// An expression: what it matches says `Matches` in `specs/Matching.antt`.
#[derive(Debug, Drop)]
pub enum Expr {
    /// The empty word.
    Empty,
    /// One character of the ranges.
    Chars(Ranges),
    /// A word of each part, in order.
    Seq(Items<Expr>),
    /// A word of some part.
    Alt(Items<Expr>),
    /// Words of the part, joined: the least number of them, and the greatest, if any.
    Repeat(Boxed<Expr>, u32, Option<u32>),
}

/// Ranges of code points, each from its first to its last.
pub type Ranges = List<(u32, u32)>;

/// Expressions, that contracts see as their list.
pub type Exprs = Items<Expr>;

impl Expr {
    #[cycle(copy)]
    pub fn copy(&self, alloc: Global) -> Result<Expr, Memory>
        ensures { IfOk result (λ copy. copy ≡ self.now) }
    {
        match self {
            Expr::Empty => Ok(Expr::Empty),
            Expr::Chars(ranges) => Ok(Expr::Chars(ranges.copy(alloc)?)),
            Expr::Seq(parts) => Ok(Expr::Seq(copy_exprs(alloc, parts.as_slice())?)),
            Expr::Alt(parts) => Ok(Expr::Alt(copy_exprs(alloc, parts.as_slice())?)),
            Expr::Repeat(part, least, most) => {
                let part = Boxed::new(alloc, part.get().copy(alloc)?)?;
                Ok(Expr::Repeat(part, *least, *most))
            }
        }
    }
}

/// Equal expressions, as a list.
#[cycle(copy)]
pub fn copy_exprs(alloc: Global, exprs: &[Expr]) -> Result<Exprs, Memory>
    ensures { IfOk result (λ copy. copy ≡ exprs.now) }
{
    let mut all = Items::new(alloc);
    for expr in exprs {
        all.push(expr.copy(alloc)?)?;
    }
    Ok(all)
}
