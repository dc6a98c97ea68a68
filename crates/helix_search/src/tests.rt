//! Searches among small numbers.

ghost use Rattle.std.specs.Prelude.{◌<◌, IsTrue, All, length};
ghost use Rattle.helix_search.specs.Inner.Small.{AllWithinNew, IsNew, IsSmallNeighbour, IsSmallNode};
ghost use Rattle.helix_values.specs.Class.{numbers};
ghost use Rattle.helix_values.specs.Counts.{IsMarkOf};

mod small;

use crate::{Level, Neighbour, Neighbours, Node, Tree, least};
use helix_base::{Memory, Quiet, Steps};
use helix_values::{CellRef, Kind, Mark, RowBuf, in_universe};
use small::{Gap, OTHER, Span, above, below, reverse};
use std::alloc::Global;
use std::test::Fail;

/// Whether a neighbour is a node, as it is seen from both sides, and has a number if it is fixed.
fn is_neighbour(tree: &Tree<'_, Span, Gap>, neighbour: &Neighbour<Gap>) -> bool
    ensures { IsTrue result
        → IsSmallNeighbour (λ g. g.above) (λ g. g.below) (λ g. g.other) tree.now neighbour.now }
{
    let Some(other) = tree.nodes.get(neighbour.node) else {
        return false;
    };
    let (down, up) = (neighbour.down, neighbour.up);
    if down.above != up.below || down.below != up.above || down.other != up.other {
        return false;
    }
    if neighbour.node >= tree.fixed {
        return true;
    }
    other.place < tree.row.len() && in_universe(Kind::Decimal, tree.row.slot(other.place).view())
}

/// Whether a neighbour isn't among those before it.
fn is_new(neighbours: &[Neighbour<Gap>], i: usize) -> bool
    requires { i < length neighbours.now }
    ensures { IsTrue result → IsNew neighbours.now i }
{
    for j in 0..i {
        if neighbours[j].node == neighbours[i].node {
            return false;
        }
    }
    true
}

/// Whether each neighbour is there once.
fn are_once(neighbours: &[Neighbour<Gap>]) -> bool
    ensures { IsTrue result → AllWithinNew neighbours.now (length neighbours.now) }
{
    for i in 0..neighbours.len() {
        if !is_new(neighbours, i) {
            return false;
        }
    }
    true
}

/// Whether all neighbours of a node are as they should be.
fn are_neighbours(tree: &Tree<'_, Span, Gap>, neighbours: &[Neighbour<Gap>]) -> bool
    ensures { IsTrue result
        → All (IsSmallNeighbour (λ g. g.above) (λ g. g.below) (λ g. g.other) tree.now) neighbours.now }
{
    for neighbour in neighbours {
        if !is_neighbour(tree, neighbour) {
            return false;
        }
    }
    true
}

/// The same, and whether each is there once.
fn is_node(tree: &Tree<'_, Span, Gap>, node: &Node<Span, Gap>) -> bool
    ensures { IsTrue result → IsSmallNode (λ g. g.above) (λ g. g.below) (λ g. g.other) tree.now node.now }
{
    are_neighbours(tree, node.neighbours.as_slice()) && are_once(node.neighbours.as_slice())
}

/// Whether all nodes are so.
fn are_nodes(tree: &Tree<'_, Span, Gap>, nodes: &[Node<Span, Gap>]) -> bool
    ensures { IsTrue result → All (IsSmallNode (λ g. g.above) (λ g. g.below) (λ g. g.other) tree.now) nodes.now }
{
    for node in nodes {
        if !is_node(tree, node) {
            return false;
        }
    }
    true
}

/// Whether a number is found, in a tree that can be searched.
fn finds(tree: &Tree<'_, Span, Gap>, node: usize, mark: Mark<'_>, levels: &mut [Level]) -> bool
    requires { IsMarkOf numbers mark }
{
    if !are_nodes(tree, tree.nodes) {
        return false;
    }
    if node >= tree.nodes.len() {
        return false;
    }
    least(tree, node, mark, levels, &mut Steps::new(Quiet))
}

/// The least number of a node from one on, of those that extend; none where the tree can't be searched.
fn number_from(
    tree: &Tree<'_, Span, Gap>,
    node: usize,
    from: u8,
    levels: &mut [Level],
) -> Option<i128> {
    let mark = Mark::At(CellRef::Number(i128::from(from)));
    if levels.is_empty() || !finds(tree, node, mark, levels) {
        return None;
    }
    match levels[0].candidate.view() {
        CellRef::Number(units) => Some(units),
        _ => None,
    }
}

/// The neighbours of a node, by the pairs that are joined.
fn neighbours_of(
    alloc: Global,
    node: usize,
    pairs: &[(usize, usize, Gap)],
) -> Result<Neighbours<Gap>, Memory> {
    let mut neighbours = Neighbours::new(alloc);
    for (parent, child, gap) in pairs {
        if *parent == node {
            neighbours.push(Neighbour {
                node: *child,
                down: *gap,
                up: reverse(*gap),
            })?;
        }
        if *child == node {
            neighbours.push(Neighbour {
                node: *parent,
                down: reverse(*gap),
                up: *gap,
            })?;
        }
    }
    Ok(neighbours)
}

/// A row of numbers.
fn row_of(alloc: Global, numbers: &[u8]) -> Result<RowBuf, Memory> {
    let mut row = RowBuf::open(alloc, numbers.len())?;
    for i in 0..numbers.len() {
        row.set(i, CellRef::Number(i128::from(numbers[i])));
    }
    Ok(row)
}

/// A search among numbers from 1 to 9, with the first ones fixed.
fn solve(
    alloc: Global,
    pairs: &[(usize, usize, Gap)],
    fixed: &[u8],
    node: usize,
    from: u8,
) -> Result<Option<i128>, Memory> {
    let mut nodes = Vec::new(alloc);
    let mut levels = Vec::new(alloc);
    for place in 0..5 {
        nodes.push(Node {
            place,
            values: Span { low: 1, high: 9 },
            neighbours: neighbours_of(alloc, place, pairs)?,
        })?;
        levels.push(Level::new())?;
    }
    let row = row_of(alloc, fixed)?;
    let tree = Tree {
        nodes: nodes.as_slice(),
        row: &row,
        fixed: fixed.len(),
    };
    Ok(number_from(&tree, node, from, levels.as_mut_slice()))
}

#[test]
fn finds_the_least_numbers(rt: HostRuntime) -> Result<(), Fail> {
    // Each next number is more than 1 above the one before.
    let chain: &[(usize, usize, Gap)] = &[
        (0, 1, above(1)),
        (1, 2, above(1)),
        (2, 3, above(1)),
        (3, 4, above(1)),
    ];
    // 1 and 2 are above 0, and 3 is below it; 4 is below 3 and 2.
    let star: &[(usize, usize, Gap)] = &[
        (0, 1, above(2)),
        (0, 2, above(0)),
        (0, 3, below(1)),
        (3, 4, below(0)),
    ];
    let others: &[(usize, usize, Gap)] = &[(0, 1, OTHER), (1, 2, above(7))];
    let cases: [(&[(usize, usize, Gap)], &[u8], usize, u8, Option<i128>); 17] = [
        (chain, &[], 0, 0, Some(1)),
        (chain, &[], 0, 2, None),
        (chain, &[], 4, 0, Some(9)),
        (chain, &[], 2, 0, Some(5)),
        (chain, &[], 2, 6, None),
        (chain, &[2], 1, 0, None),
        (chain, &[1], 1, 0, Some(3)),
        (star, &[], 0, 0, Some(4)),
        (star, &[], 0, 5, Some(5)),
        (star, &[], 0, 7, None),
        (star, &[], 1, 0, Some(7)),
        (star, &[], 3, 3, Some(3)),
        (star, &[], 4, 3, Some(3)),
        (star, &[], 4, 4, None),
        (star, &[5], 1, 0, Some(8)),
        (others, &[], 0, 0, Some(2)),
        (others, &[1], 1, 0, None),
    ];
    for (pairs, fixed, node, from, want) in cases {
        assert_eq!(rt; solve(rt.alloc(), pairs, fixed, node, from)?, want);
    }
    Ok(())
}
