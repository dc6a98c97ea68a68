//! Literals.

ghost use Rattle.std.specs.Prelude.{◌≡◌, IfOk};
ghost use Rattle.helix_tree.specs.TreeOf.{opposite as opposite_literal};

use helix_base::{Memory, TryCopy};
use helix_profile::{Atom, Relation};
use std::alloc::Global;

/// A test of a row: `LiteralHolds` in `specs/Tree.antt` says what it means. The first flag of a
/// test or a relation is its sign; the second says strict, which is that none of its fields is
/// null. A weak one holds where a field is null.
#[derive(Debug, Drop)]
pub enum Literal {
    /// The field, which is numbered from 0, is null.
    Null(u32),
    NotNull(u32),
    /// A test of one field, other than that of null.
    Plain(Atom, bool, bool),
    /// A comparison of two fields.
    Joined(Relation, bool, bool),
}

impl Literal {
    /// An equal literal.
    pub fn copy(&self, alloc: Global) -> Result<Literal, Memory>
        ensures { IfOk result (λ copy. copy ≡ self.now) }
    {
        Ok(match self {
            Literal::Null(field) => Literal::Null(*field),
            Literal::NotNull(field) => Literal::NotNull(*field),
            Literal::Plain(atom, sign, strict) => {
                Literal::Plain(atom.copy(alloc)?, *sign, *strict)
            }
            Literal::Joined(relation, sign, strict) => {
                Literal::Joined(*relation, *sign, *strict)
            }
        })
    }

    /// The literal that holds exactly where this one doesn't.
    pub fn opposite(&self, alloc: Global) -> Result<Literal, Memory>
        ensures { IfOk result (λ other. other ≡ opposite_literal self.now) }
    {
        Ok(match self {
            Literal::Null(field) => Literal::NotNull(*field),
            Literal::NotNull(field) => Literal::Null(*field),
            Literal::Plain(atom, sign, strict) => {
                Literal::Plain(atom.copy(alloc)?, !*sign, !*strict)
            }
            Literal::Joined(relation, sign, strict) => {
                Literal::Joined(*relation, !*sign, !*strict)
            }
        })
    }
}

impl TryCopy for Literal {
    fn try_copy(&self, alloc: Global) -> Result<Literal, Memory> {
        self.copy(alloc)
    }
}
