//! What the value of a field allows of the value of a field that is joined with it.

ghost use Rattle.std.specs.Prelude.{◌↔◌, IsTrue};
ghost use Rattle.helix_search.specs.Bounds.{IsValue, AreThoseAdmitted};
ghost use Rattle.helix_search.specs.Exclusion.{IsExclusion};
ghost use Rattle.helix_values.specs.Class.{Class};
ghost use Rattle.helix_values.specs.Order.{CellLess};
ghost use Rattle.helix_values.specs.View.{cell_of};
ghost use Rattle.helix_values.specs.declared.cell.Cell.{Cell};

use helix_values::{CellRef, Mark};

/// What isn't allowed from a value on. The definition is in `specs/Exclusion.antt`.
#[derive(Clone, Copy, Debug)]
pub enum Exclusion<'a> {
    /// The value is allowed.
    No,
    /// The value isn't, nor are those after it that the mark doesn't admit.
    Until(Mark<'a>),
    /// Neither the value nor any after it is allowed.
    Rest,
}

/// What a value of a field, the parent, allows of the value of a field that is joined with it, the child: a child that
/// meets a lower bound and an upper one, and isn't excluded. Both are of one class.
pub trait Link {
    ghost class: { Self → Class };

    ghost Lower: { Self → Cell → Cell → Type 0 };

    ghost Upper: { Self → Cell → Cell → Type 0 };

    ghost Allowed: { Self → Cell → Cell → Type 0 };

    /// The mark that admits the children that meet the lower bound of a parent; `None` where none does.
    fn lower<'a>(&self, parent: CellRef<'a>) -> Option<Mark<'a>>
        requires { IsValue (class self.now) (cell_of parent) }
        ensures { AreThoseAdmitted (class self.now) (Lower self.now (cell_of parent.entry)) result };

    /// Whether a child meets the upper bound of a parent.
    fn passes_upper(&self, parent: CellRef<'_>, child: CellRef<'_>) -> bool
        requires parent { IsValue (class self.now) (cell_of parent) }
        requires child { IsValue (class self.now) (cell_of child) }
        ensures { IsTrue result ↔ Upper self.now (cell_of parent.entry) (cell_of child.entry) };

    /// The mark that admits the parents whose upper bound a child meets; `None` where it meets none.
    fn inverse<'a>(&self, child: CellRef<'a>) -> Option<Mark<'a>>
        requires { IsValue (class self.now) (cell_of child) }
        ensures { AreThoseAdmitted (class self.now) (λ p. Upper self.now p (cell_of child.entry)) result };

    /// What a parent excludes from a child on.
    fn excludes<'a>(&self, parent: CellRef<'_>, child: CellRef<'a>) -> Exclusion<'a>
        requires parent { IsValue (class self.now) (cell_of parent) }
        requires child { IsValue (class self.now) (cell_of child) }
        ensures { IsExclusion (class self.now) (Allowed self.now (cell_of parent.entry)) (cell_of child.entry) result };

    // No lower bound falls as the parent grows,
    ghost lower_rises: { (s : Self) (p q v : Cell) → IsValue (class s) p → IsValue (class s) q → IsValue (class s) v
        → ¬ CellLess q p → Lower s q v → Lower s p v };

    // nor does an upper one,
    ghost upper_rises: { (s : Self) (p q v : Cell) → IsValue (class s) p → IsValue (class s) q → IsValue (class s) v
        → ¬ CellLess q p → Upper s p v → Upper s q v };

    // and what is below a child that meets an upper bound meets it too.
    ghost upper_holds_below: { (s : Self) (p v w : Cell) → IsValue (class s) p → IsValue (class s) v
        → IsValue (class s) w → ¬ CellLess w v → Upper s p w → Upper s p v };
}
