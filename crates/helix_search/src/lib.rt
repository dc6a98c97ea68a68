//! The least value of a field in a tree of related fields, of those that the other fields can go along with.
//!
//! ```text
//! let tree = Tree { nodes: &nodes, row: &row, fixed: 2 };           // nodes 0 and 1 have their cells in the row
//! let found = least(&tree, 2, Mark::Start, &mut levels, &mut steps);
//! levels[0].candidate.view()                                        // the value, where `found` is true
//! ```
//!
//! A [`Node`] is a field: its values, and the [`Neighbour`]s that it is joined with. A [`Link`] says which values of
//! the one, the child, stand beside a value of the other, the parent. The crate knows no tests and no relations: the values
//! are any [`Choices`], and what joins two fields any [`Link`].
//!
//! What is proved:
//! - [`least`] finds the least value of a node that a mark admits and that extends over the nodes that are seen from
//!   it, and answers false exactly where there is none (`specs/Extending.antt` says what extends, `specs/Nodes.antt` which
//!   graph the nodes are). A fixed neighbour has its cell, and nothing is seen through it.
//! - It looks at as many nodes in a row as there are levels, and at no more.
//! - It ends, takes no memory, and no count of steps falls.
//!
//! It needs nodes that are joined alike from both sides and have each neighbour once (`AreNodes`), fixed neighbours
//! with values (`AreFixed`), and a mark of the node's class. That as many levels as nodes are
//! enough where the nodes form trees isn't shown here.
//!
//! How it works: a candidate is tried, each neighbour is asked for the least value that the candidate's lower bound
//! admits, and one that breaks the upper bound raises the candidate at once to the first that it allows. No clause says
//! what that costs: it is few questions where bounds decide, and can be as many as there are values where a far field
//! forces many small steps.
#![tactic(auto)]

mod ask;
mod choices;
mod kept;
mod level;
mod link;
mod node;
mod search;
mod tree;

pub use choices::Choices;
pub use level::Level;
pub use link::{Exclusion, Link};
pub use node::{Neighbour, Neighbours, Node};
pub use search::least;
pub use tree::Tree;

#[cfg(test)]
mod tests;
