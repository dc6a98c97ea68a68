//! Graphs of nodes.

use crate::region::Region;

/// What has a graph of nodes, of which proofs alone speak.
pub trait HasGraph {
    ghost use Rattle.helix_search.specs.Extending.{Graph};

    ghost graph: { Self → Graph };
}

impl HasGraph for Region {
    ghost use Rattle.helix_relations.specs.RegionGraph.{graph_of};

    ghost graph = { graph_of };
}
