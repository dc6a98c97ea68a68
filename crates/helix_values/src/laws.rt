//! Laws over the definitions alone: each is the contract of a function that does nothing.

ghost use Rattle.std.specs.Prelude.{ℕ, ◌≡◌, ◌↔◌, ◌<◌, Some, List};
ghost use Rattle.std.specs.Cmp.{IsTotalOrder};
ghost use Rattle.std.specs.FinMap.{IsAntisymmetric};
ghost use Rattle.helix_values.specs.declared.cell.Cell.{Cell};
ghost use Rattle.helix_values.specs.declared.kind.Kind.{Kind};
ghost use Rattle.helix_values.specs.Class.{Class, class_of, class_of_kind, IsNullOr, AreComparable};
ghost use Rattle.helix_base.specs.declared.alphabet.Alphabet.TheVariants.{Basic, Latin, Unicode};
ghost use Rattle.helix_base.specs.Alphabet.{IsCharacterOf};
ghost use Rattle.helix_values.specs.OnGrid.{IsOnGrid};
ghost use Rattle.helix_values.specs.OwnLevel.{own_level};
ghost use Rattle.helix_values.specs.Universe.{InUniverse};
ghost use Rattle.helix_values.specs.declared.mark.Mark.{Mark};
ghost use Rattle.helix_values.specs.Counts.{IsMarkOf, widest_kind, values_left};
ghost use Rattle.helix_values.specs.Marks.{IsAdmitted};
ghost use Rattle.helix_values.specs.Order.{cell_cmp, row_cmp, CellLess, RowLess};

/// Of two cells one is before the other, or they are equal.
pub fn cells_have_a_total_order()
    ensures total { IsTotalOrder cell_cmp }
    ensures antisymmetric { IsAntisymmetric cell_cmp }
    ensures irreflexive { (a : Cell) → ¬ CellLess a a }
    ensures transitive { (a b c : Cell) → CellLess a b → CellLess b c → CellLess a c }
{}

/// The same of rows, in lexicographic order.
pub fn rows_have_a_total_order()
    ensures total { IsTotalOrder row_cmp }
    ensures antisymmetric { IsAntisymmetric row_cmp }
    ensures irreflexive { (a : List Cell) → ¬ RowLess a a }
    ensures transitive { (a b c : List Cell) → RowLess a b → RowLess b c → RowLess a c }
{}

/// The values of a kind are of the kind's class, and those of one class can be compared.
pub fn universes_lie_in_classes()
    ensures class { (k : Kind) (c : Cell) → InUniverse k c → class_of c ≡ Some (class_of_kind k) }
    ensures comparable { (class : Class) (a b : Cell) → IsNullOr class a → IsNullOr class b → AreComparable a b }
{}

/// A character of an alphabet is one of each larger alphabet.
pub fn alphabets_hold_the_smaller_ones()
    ensures latin { (code : ℕ) → IsCharacterOf Basic code → IsCharacterOf Latin code }
    ensures unicode { (code : ℕ) → IsCharacterOf Latin code → IsCharacterOf Unicode code }
{}

/// The values of a kind, words of a code included, are values of the widest kind of its class. Those
/// of a kind with a level of its own are the ones that are on it.
pub fn universes_lie_in_the_widest_ones()
    ensures widest { (k : Kind) (c : Cell) → InUniverse k c → InUniverse (widest_kind (class_of_kind k)) c }
    ensures own_level { (k : Kind) (level : ℕ) (c : Cell) → own_level k ≡ Some level
        → InUniverse k c ↔ (InUniverse (widest_kind (class_of_kind k)) c × IsOnGrid level c) }
{}

/// A mark that no longer admits a value of the widest universe of its class leaves fewer of them.
pub fn marks_leave_fewer_values()
    ensures { (class : Class) (m n : Mark) (v : Cell) → IsMarkOf class m → IsMarkOf class n
        → InUniverse (widest_kind class) v
        → IsAdmitted m v → ¬ IsAdmitted n v → values_left class n < values_left class m }
{}
