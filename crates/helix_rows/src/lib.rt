//! The walk over the rows of disjoint parts, in ascending order.
//!
//! ```text
//! // fields 0 and 2 with the regions 0 and 1 of a list, field 1 with region 2
//! let mut walk = RowWalk::open(alloc, parts, regions, 3)?;
//! while let Some(kept) = walk.step(&mut steps) {
//!     print(walk.row());                                    // its first `kept` cells are those of the row before
//! }
//! walk.seek_after(&row);                                    // any row: the next step gives the least one above it
//! ```
//!
//! The fields of a row are divided into [`Part`]s, and each part has [`Region`]s: sets of rows over the part's fields.
//! A row is in the parts where, for each part, its cells of the part's fields are a row of one of the part's regions
//! (`specs/Parts.antt`). Regions of one part may share rows: a row is given once.
//!
//! What is promised:
//! - [`RowWalk::step`] makes the least row of the parts above the place the new place, in the order of rows by the
//!   declared order of the fields. It answers the first field whose cell changed, and `None` exactly where no row of
//!   the parts is above the place, which then stays.
//! - [`RowWalk::seek_after`] makes any row the place.
//! - No call changes the parts, the regions' fields, classes or rows, and no region's number of questions falls.
//!
//! A region has a class for each of its fields, and its rows have cells of these classes; the regions of one part have
//! the same ones. A question needs such cells in the row, so a row that is sought needs them too.
//!
//! Only [`RowWalk::open`] takes memory. A region answers the least cell with which first cells of a row go on to one
//! of its own; where one region is alive, a question is one call of [`Region::step`], in place.
//!
//! A step asks, of all regions together, at most two questions for each field and each region of the part that has the
//! most, wherever the place is. From a given row it goes up to the last field that can be raised, and down from there.
//! After `seek_after` the first cells of the row may begin no row: then each field is looked at once on the way up, by
//! [`Region::least`], which checks the cells before it.
#![tactic(auto)]

mod ask;
mod climb;
mod copy;
mod follow;
mod layout;
mod numbers;
mod offer;
mod part;
mod region;
mod state;
mod walk;

pub use part::Part;
pub use region::{Question, Region};
pub use walk::RowWalk;

#[cfg(test)]
mod tests;
