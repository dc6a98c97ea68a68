//! Regions: fields with the cells that each can have, and relations between them.
//!
//! ```text
//! let mut region = Region::open(alloc, &profile, &[0, 2, 5])?;    // all cells of these fields
//! region.restrict(&atom, true)?;                                  // values of the atom's field that pass it
//! region.forbid_null(2);
//! region.forbid_null(5);
//! region.relate(relation, false)?;                                // between 2 and 5, negated
//! region.least(&row, 0, Mark::Start, &mut out, &mut steps);       // the least cell of field 0 in any row of the region
//! regions.push(region)?;
//! regions.region(0).only_null(0);                                 // lent for writing
//! ```
//!
//! A [`Region`] has the rows in which each field has one of its cells and each relation stands. Contracts see its fields
//! in the order of their numbers in the profile, each with its signed atoms and whether null is forbidden or alone
//! allowed, its signed relations, and how many questions were asked. `specs/Region.antt` says what its rows are, and
//! what it means that a cell extends the first cells of a row to a row of the region.
//!
//! Relations join the fields of a region to trees. So a cell of a field is that of some row exactly where it extends
//! over the fields that are seen from it, one after the other: [`laws`] has this for any graph whose pairs are those of
//! a forest, for the fields of a region, and that there is a row exactly where some cell of the first field of each tree
//! extends. `specs/RegionGraph.antt` has the graph of a region.
//!
//! [`Region::least`] finds the least cell that a mark admits, of those with which first cells extend to a row of the
//! region, and answers false exactly where there is none, also where no row begins with these cells. [`Region::step`]
//! does the same in place for a row whose first cells some row begins with, and asks less. Both count one question of
//! the region, change nothing else of it, and end. In a region without relations a step asks one domain once at most,
//! and `least` as many times as there are fields, and once more. So a region is a set of rows of helix_rows
//! (`specs/Pieces.antt`). No clause says what a question costs where fields are related.
//!
//! Only want of memory makes a call fail, and the region is then as it was. No clause says what a call costs: each looks
//! for its field among those of the region, [`Region::restrict`] makes the values of the field anew, and
//! [`Region::relate`] copies the relations, makes the links of its two fields anew from all of them, and takes room of
//! about 8,000 bytes for each field of the region.
#![tactic(auto)]

mod cells;
mod giving;
mod graph;
pub mod laws;
mod least;
mod neighbours;
mod part;
mod pieces;
mod region;
mod regions;
mod search;
mod signed;
mod step;

pub use graph::HasGraph;
pub use region::Region;
pub use regions::Regions;
pub use signed::SignedRelation;

#[cfg(test)]
mod tests;
