//! Laws of cells that extend over trees, each the contract of a function that does nothing.

ghost use Rattle.std.specs.Prelude.{◌≡◌, ◌<◌, ◌≤◌, ◌↔◌, ℕ, List, Option, None, length, take};
ghost use Rattle.helix_values.specs.declared.cell.Cell.{Cell};
ghost use Rattle.helix_profile.specs.declared.relation.Relation.{Relation};
ghost use Rattle.helix_search.specs.Extending.{Extends};
ghost use Rattle.helix_relations.specs.Region.{RegionContent, numbers_of, IsRegion, IsRegionRow, AgreeAt, BeginsWith, ExtendsTo};
ghost use Rattle.helix_relations.specs.RegionGraph.{graph_of, fixed_by, node_relations};
ghost use Rattle.helix_relations.specs.SearchGraph.{IsRelated, IsSearchGraph};
ghost use Rattle.helix_relations.specs.Asking.{Begins};
ghost use Rattle.helix_relations.specs.Pieces.{IsRegionPiece};
ghost use Rattle.helix_rows.specs.Regions as pieces;
ghost use Rattle.helix_rows.specs.Regions.{piece, Continues};
ghost use Rattle.helix_relations.specs.Rows.{IsForestOf, IsGoodRow, HasFixed, IsInSomeRow, IsFirstOfTree};

use crate::graph::HasGraph;

/// Where there is a good row with the fixed cells, the cells of another node that extend are those of such rows.
pub fn extending_is_exact<G: HasGraph>()
    ensures { (nodes : G) (relations : List Relation) (count : ℕ) → IsForestOf (G.graph nodes) relations count
        → (fixed : ℕ → Option Cell) (row : ℕ → Cell) → IsGoodRow (G.graph nodes) count row → HasFixed fixed row
        → (depth : ℕ) → count ≤ depth → (u : ℕ) (v : Cell) → u < count → fixed u ≡ None
        → Extends (G.graph nodes) fixed depth None u v ↔ IsInSomeRow (G.graph nodes) count fixed u v }
{}

/// There is a good row exactly where some cell of the first node of each tree extends.
pub fn trees_have_rows<G: HasGraph>()
    ensures { (nodes : G) (relations : List Relation) (count : ℕ) → IsForestOf (G.graph nodes) relations count
        → (depth : ℕ) → count ≤ depth → ((u : ℕ) → u < count → IsFirstOfTree relations u
        → (v : Cell) × Extends (G.graph nodes) (λ other. None) depth None u v)
        ↔ ((row : ℕ → Cell) × IsGoodRow (G.graph nodes) count row) }
{}

/// Where some row of a region begins with the cells of a prefix, the cells of the next field that extend in the graph of
/// the region are those of such rows; and the region has rows exactly where some cell of the first field of each tree
/// extends. A row with the same cells at the region's fields is a row of it too.
pub fn cells_of_a_region()
    ensures extends { (region : RegionContent) → IsRegion region → (prefix : List Cell) (level : ℕ)
        → level < length region.fields → (row : List Cell) → BeginsWith region prefix level row
        → (depth : ℕ) → length region.fields ≤ depth → (v : Cell)
        → Extends (graph_of region) (fixed_by region prefix level) depth None level v
        ↔ ExtendsTo region prefix level v }
    ensures has_rows { (region : RegionContent) → IsRegion region → (depth : ℕ) → length region.fields ≤ depth
        → ((u : ℕ) → u < length region.fields → IsFirstOfTree (node_relations region) u
        → (v : Cell) × Extends (graph_of region) (λ other. None) depth None u v)
        ↔ ((row : List Cell) × IsRegionRow region row) }
    ensures by_fields { (region : RegionContent) → IsRegion region → (row other : List Cell)
        → AgreeAt (numbers_of region.fields) row other → IsRegionRow region row → IsRegionRow region other }
{}

/// The same in a graph that a search goes through: it has the same neighbours, and knows of the related fields alone
/// which cells they have and which of these stand together.
pub fn searched_cells_of_a_region<G: HasGraph>()
    ensures { (search : G) (region : RegionContent) → IsRegion region → IsSearchGraph region (G.graph search)
        → (prefix : List Cell) (level : ℕ) → IsRelated region level → (row : List Cell)
        → BeginsWith region prefix level row → (depth : ℕ) → length region.fields ≤ depth → (v : Cell)
        → Extends (G.graph search) (fixed_by region prefix level) depth None level v
        ↔ ExtendsTo region prefix level v }
{}

/// The pieces of a region are the cells of its rows at its fields: a row is one of the region exactly where its cells
/// there are a piece, some row begins with a prefix exactly where the prefix's cells begin a piece, and a cell extends
/// the prefix to a row exactly where they continue with it to a piece.
pub fn pieces_of_a_region()
    ensures rows { (region : RegionContent) → IsRegion region → (row : List Cell)
        → IsRegionPiece region (piece (numbers_of region.fields) row) ↔ IsRegionRow region row }
    ensures begins { (region : RegionContent) (prefix : List Cell) (level : ℕ) → Begins region prefix level
        ↔ pieces.Begins (IsRegionPiece region) (piece (take level (numbers_of region.fields)) prefix) }
    ensures extends { (region : RegionContent) (prefix : List Cell) (level : ℕ) → level < length region.fields
        → (v : Cell) → ExtendsTo region prefix level v
        ↔ Continues (IsRegionPiece region) (piece (take level (numbers_of region.fields)) prefix) v }
{}
