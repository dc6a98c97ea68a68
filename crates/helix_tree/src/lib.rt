//! Constraints as trees of literals, and the strict negation of a tree.
//!
//! ```
//! let tree = tree_of(alloc, &constraint)?;   // holds exactly where the constraint is satisfied
//! let rest = strict_not(alloc, &tree)?;      // holds exactly where the tree doesn't
//! ```
//!
//! A [`Tree`] says of each row whether it holds, and has neither signs of composed constraints nor
//! conditions any more. The negation of a constraint isn't the complement of it, since at null a test
//! is satisfied with both signs. So a [`Literal`] says what it makes of null: a weak one holds there,
//! a strict one doesn't, and the opposite of one is the other. That makes [`strict_not`] the exact
//! complement of a tree, for all rows, which is what disjoint paths are made by.
//!
//! [`tree_of`] and [`strict_not`] each answer the one tree of their definition, or that memory ran
//! out. Recursion is as deep as the constraint is nested.
//!
//! The definitions are in `specs/`: `Tree.antt` says what a literal and a tree say of a row,
//! `TreeOf.antt` what the tree of a constraint and the strict negation of a tree are.
#![tactic(auto)]

mod literal;
mod signed;
mod strict;
mod tree;

pub use literal::Literal;
pub use signed::tree_of;
pub use strict::strict_not;
pub use tree::{Tree, Trees, copy_trees};

#[cfg(test)]
mod tests;
