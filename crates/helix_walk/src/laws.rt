//! Laws of lists of rows and of the rows of groups, each the contract of a function that does nothing.

ghost use Rattle.std.specs.Prelude.{◌≡◌, ◌↔◌, List, ◌++◌, Option, length};
ghost use Rattle.helix_partition.specs.Groups.{IsPartition};
ghost use Rattle.helix_partition.specs.declared.partition.Partition.{Partition};
ghost use Rattle.helix_profile.specs.Answer.{IsAbove, IsPrefixOf, IsRestOf};
ghost use Rattle.helix_profile.specs.Content.{Content};
ghost use Rattle.helix_profile.specs.Good.{IsGood};
ghost use Rattle.helix_relations.specs.Pieces.{IsRegionPiece};
ghost use Rattle.helix_relations.specs.Region.{RegionContent};
ghost use Rattle.helix_rows.specs.Parts.{HasAt, IsInParts, IsNextRow};
ghost use Rattle.helix_rows.specs.declared.part.Part.{Part};
ghost use Rattle.helix_values.specs.declared.cell.Cell.{Cell};
ghost use Rattle.helix_walk.specs.Groups.{AreRegionsOfEach, IsRowOfEach};
ghost use Rattle.helix_walk.specs.NextRows.{AreNextRows, end_of};
ghost use Rattle.helix_walk.specs.Parts.{ArePartsFor};

use helix_profile::RowSet;

/// Rows of a set of which each is the next one are a prefix of those above the start, and all of them where no row of
/// the set is above the end. Such lists can be joined.
pub fn next_rows<S: RowSet>()
    ensures prefix { (set : S) (start : Option (List Cell)) (rows : List (List Cell))
        → AreNextRows (S.Has set) start rows → IsPrefixOf (S.Has set) start rows }
    ensures rest { (set : S) (start : Option (List Cell)) (rows : List (List Cell))
        → AreNextRows (S.Has set) start rows
        → ((row : List Cell) → S.Has set row → ¬ IsAbove (end_of start rows) row)
        → IsRestOf (S.Has set) start rows }
    ensures joined { (set : S) (start : Option (List Cell)) (rows more : List (List Cell))
        → AreNextRows (S.Has set) start rows → AreNextRows (S.Has set) (end_of start rows) more
        → AreNextRows (S.Has set) start (rows ++ more) }
{}

/// A prefix, followed by a prefix of the rows above its end, is a prefix; and followed by all of those, all rows above
/// the start.
pub fn prefixes_are_joined<S: RowSet>()
    ensures prefix { (set : S) (start : Option (List Cell)) (rows more : List (List Cell))
        → IsPrefixOf (S.Has set) start rows → IsPrefixOf (S.Has set) (end_of start rows) more
        → IsPrefixOf (S.Has set) start (rows ++ more) }
    ensures rest { (set : S) (start : Option (List Cell)) (rows more : List (List Cell))
        → IsPrefixOf (S.Has set) start rows → IsRestOf (S.Has set) (end_of start rows) more
        → IsRestOf (S.Has set) start (rows ++ more) }
{}

/// Where each group of a profile has regions, a row is good exactly where it has one cell for each field and is a row
/// of some region of each group.
pub fn good_rows_of_groups()
    ensures { (profile : Content) (groups : List Partition) (regions : List (List RegionContent))
        → IsPartition profile groups → AreRegionsOfEach profile groups regions → (row : List Cell)
        → IsGood profile row ↔ ((length row ≡ length profile.fields) × IsRowOfEach regions row) }
{}

/// The same in the words of a walk: the rows in its parts are the good ones.
pub fn good_rows_in_parts()
    ensures { (profile : Content) (groups : List Partition) (regions : List RegionContent) (parts : List Part)
        → IsPartition profile groups → ArePartsFor profile regions groups parts → (row : List Cell)
        → IsInParts (HasAt IsRegionPiece regions) (length profile.fields) parts row ↔ IsGood profile row }
{}

/// What is next in one set of rows, and where it ends, is so in any set of the same rows.
pub fn sets_of_the_same_rows<S: RowSet, T: RowSet>()
    ensures { (set : S) (other : T) → ((row : List Cell) → S.Has set row ↔ T.Has other row)
        → (start : Option (List Cell)) (row : List Cell) → IsNextRow (S.Has set) start row
        → IsNextRow (T.Has other) start row }
{}
