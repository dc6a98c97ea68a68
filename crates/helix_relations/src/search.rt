//! The search through related fields of a region.

ghost use Rattle.std.specs.Prelude.{◌≡◌, ◌<◌, ◌≤◌, None, length};
ghost use Rattle.helix_search.specs.Counting.{CountsGrow};
ghost use Rattle.helix_search.specs.Extending.{Extends};
ghost use Rattle.helix_search.specs.Levels.{IsFound, first_candidate};
ghost use Rattle.helix_relations.specs.Asking.{IsMarkFor, OfField};
ghost use Rattle.helix_relations.specs.RegionGraph.{graph_of, fixed_by};
ghost use Rattle.helix_relations.specs.SearchGraph.{IsRelated};
ghost use Rattle.helix_relations.specs.Inner.Searched.{AreKept, AreCellsFixed, region_of};

use crate::part::PartNode;
use crate::signed::SignedRelation;
use helix_base::{Ledger, Steps};
use helix_search::{Level, Tree, least};
use helix_values::{Mark, RowBuf};

/// The fields of a region with the relations between them.
#[derive(Clone, Copy)]
pub(crate) struct Fields<'a> {
    pub nodes: &'a [PartNode],
    /// They are at hand in the nodes' neighbours, and say in contracts what these are.
    pub relations: &'a [SignedRelation],
}

/// Puts the least cell of a related field that a mark admits, and that extends over the fields that aren't fixed, into
/// the candidate of the first level, or answers false where there is none. The first `fixed` fields have the cells of a
/// row.
pub(crate) fn search<L: Ledger>(
    fields: &Fields<'_>,
    row: &RowBuf,
    fixed: usize,
    index: usize,
    mark: Mark<'_>,
    levels: &mut [Level],
    steps: &mut Steps<L>,
) -> bool
    requires kept { AreKept fields.now levels.old }
    requires within { fixed ≤ length fields.now.nodes.now }
    requires fixed { AreCellsFixed (region_of fields.now) row.now fixed }
    requires related { IsRelated (region_of fields.now) index }
    requires mark { OfField (region_of fields.now).fields index (IsMarkFor mark) }
    ensures answer { IsFound (Extends (graph_of (region_of fields.now)) (fixed_by (region_of fields.now) row.now fixed)
        (length levels.old) None index) mark.entry result (first_candidate levels.new) }
    ensures counts { CountsGrow steps.old steps.new }
{
    let tree = Tree {
        nodes: fields.nodes,
        row,
        fixed,
    };
    least(&tree, index, mark, levels, steps)
}
