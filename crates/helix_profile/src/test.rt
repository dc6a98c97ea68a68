//! Tests of one value.

ghost use Rattle.std.specs.Prelude.{◌≡◌, IfOk};

use helix_base::Memory;
use helix_expr::Regex;
use helix_values::{Cell, Cells};
use std::alloc::Global;

/// What is asked of the value of one field.
#[derive(Debug, Drop)]
pub enum Test {
    /// Null, or with `false` not null.
    IsNull(bool),
    EqualTo(Cell),
    /// A member of the set.
    InSet(Cells),
    /// A text that matches as a whole.
    Matching(Regex),
    /// A text with a part that matches.
    Containing(Regex),
    /// A text of this length in characters.
    OfLength(u32),
    LongerThan(u32),
    ShorterThan(u32),
    Above(Cell),
    AtLeast(Cell),
    Below(Cell),
    AtMost(Cell),
    /// On the grid of this level of the field's ladder.
    OnGrid(u32),
}

impl Test {
    pub fn copy(&self, alloc: Global) -> Result<Test, Memory>
        ensures { IfOk result (λ copy. copy ≡ self.now) }
    {
        Ok(match self {
            Test::IsNull(null) => Test::IsNull(*null),
            Test::EqualTo(cell) => Test::EqualTo(cell.copy(alloc)?),
            Test::InSet(cells) => Test::InSet(cells.copy(alloc)?),
            Test::Matching(regex) => Test::Matching(regex.copy(alloc)?),
            Test::Containing(regex) => Test::Containing(regex.copy(alloc)?),
            Test::OfLength(length) => Test::OfLength(*length),
            Test::LongerThan(length) => Test::LongerThan(*length),
            Test::ShorterThan(length) => Test::ShorterThan(*length),
            Test::Above(cell) => Test::Above(cell.copy(alloc)?),
            Test::AtLeast(cell) => Test::AtLeast(cell.copy(alloc)?),
            Test::Below(cell) => Test::Below(cell.copy(alloc)?),
            Test::AtMost(cell) => Test::AtMost(cell.copy(alloc)?),
            Test::OnGrid(level) => Test::OnGrid(*level),
        })
    }
}

/// A test of a field, which is numbered from 0.
#[derive(Debug, Drop)]
pub struct Atom {
    pub field: u32,
    pub test: Test,
}

impl Atom {
    pub fn copy(&self, alloc: Global) -> Result<Atom, Memory>
        ensures { IfOk result (λ copy. copy ≡ self.now) }
    {
        Ok(Atom {
            field: self.field,
            test: self.test.copy(alloc)?,
        })
    }
}
