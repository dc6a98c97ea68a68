//! The disjoint paths of a group of constraints, and its disjoint regions. Each row of cells that satisfies the
//! constraints makes exactly one path hold, and is a row of exactly one region.
//!
//! ```
//! let mut paths = Paths::open(alloc, &profile, &part)?;
//! while let Some(path) = paths.next()? {
//!     narrow(path.as_slice());   // each literal holds
//! }
//! let regions = regions(alloc, &profile, &part)?;
//! ```
//!
//! A constraint with alternatives says that one of several things holds, and two of them may hold at once. A path is
//! one way to satisfy all constraints: it chooses an alternative, and says that those before it don't hold. So a row of
//! cells that satisfies the constraints of the part makes exactly one path hold, and any other row none. There are at
//! most as many paths as the product of the widths of the constraints, and each literal is a valid one about the
//! part's fields.
//!
//! [`Paths::next`] takes the first of the paths that remain; where memory runs out, they stay as they are. Paths are
//! made one at a time, when they are asked for, and what can't hold in any row of cells is left as soon as that is
//! seen.
//!
//! [`regions`] makes of each path the region of the rows in which it holds, and keeps those that have a row. A region
//! has the part's fields, each with the cells that the literals leave to it, and the relations of the path. A strict
//! literal forbids null at its fields; a weak test counts as passed at null, in a region as in a path. So a row of
//! cells satisfies the constraints of the part where it is one of some region, no row is one of two, and there are at
//! most as many regions as the product of the widths.
//!
//! Only want of memory makes a call fail. No clause says what a path or a region costs: one path is at hand at a time,
//! each literal narrows the region of its path in turn, and each region is asked one question, whether it has a row.
//!
//! The definitions are in `specs/`: `Paths.antt` says when a path holds and what is promised of a list of paths,
//! `Regions.antt` what is promised of a list of regions, `Parts.antt` what a part of a profile is, `Literals.antt` what
//! a valid literal is.
#![tactic(auto)]

mod advance;
mod branch;
mod clash;
mod descend;
pub mod laws;
mod literals;
mod narrow;
mod open;
mod paths;
mod region_list;
mod standing;

pub use branch::Path;
pub use paths::Paths;
pub use region_list::regions;

#[cfg(test)]
mod tests;
