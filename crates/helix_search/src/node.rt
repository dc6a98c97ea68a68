//! Fields and their neighbours.

use helix_base::List;

/// A field that is joined with a node.
#[derive(Debug, Drop)]
pub struct Neighbour<K> {
    /// The number of its node.
    pub node: usize,
    /// What the node's value, as the parent, allows of the neighbour's.
    pub down: K,
    /// The same with the neighbour as the parent.
    pub up: K,
}

/// The neighbours of a node, each once.
pub type Neighbours<K> = List<Neighbour<K>>;

/// A field of a tree.
#[derive(Debug, Drop)]
pub struct Node<V, K> {
    /// Where in a row its cell is.
    pub place: usize,
    pub values: V,
    pub neighbours: Neighbours<K>,
}
