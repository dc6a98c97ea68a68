//! The automaton of all texts but those of a list.

ghost use Rattle.std.specs.Prelude.{ℕ, List, [], ◌≡◌, ◌↔◌, ◌≤◌, ◌<◌, Some, IsTrue, IfOk, slice_index_or};
ghost use Rattle.std.specs.List.{All, Contains};
ghost use Rattle.helix_automata.specs.Automaton.{Accepts};
ghost use Rattle.helix_automata.specs.Shape.{IsCharacter};
ghost use Rattle.helix_domains.specs.Inner.Spelling.{code_in, HasRest, SpellsNone, AreFollowing, next_place as place_after};
ghost use Rattle.helix_domains.specs.Inner.MachineLaws.{same_spellings};
ghost use Rattle.helix_values.specs.Slot.{FitsSlot};
ghost use Rattle.helix_values.specs.declared.cell.Cell.TheVariants as cells_;

use helix_automata::{Dfa, Machine, explore};
use helix_base::Memory;
use helix_values::Cell;
use std::alloc::Global;

/// A machine that reads a text beside those of a list. A state is how many characters were read, and the numbers of
/// the texts that begin with them.
#[derive(Drop)]
struct Spelling<'a> {
    cells: &'a [Cell],
}

/// The character of a cell's text at a place, or `None` past its end and where the cell is no text.
fn code_at(cell: &Cell, place: usize) -> Option<u32>
    ensures { result ≡ code_in cell.now place }
{
    match cell {
        Cell::Text(text) => text.codes().get(place).copied(),
        _ => None,
    }
}

/// The same of the cell with a number.
fn code_of(cells: &[Cell], number: usize, place: usize) -> Option<u32>
    ensures { result ≡ code_in (slice_index_or cells.now number cells_.Null) place }
{
    match cells.get(number) {
        Some(cell) => code_at(cell, place),
        None => None,
    }
}

/// Whether a cell is a text that ends at a place.
fn ends_here(cell: &Cell, place: usize) -> bool
    ensures { IsTrue result ↔ HasRest cell.now place [] }
{
    match cell {
        Cell::Text(text) => text.codes().len() == place,
        _ => false,
    }
}

/// The same of the cell with a number.
fn ends_at(cells: &[Cell], number: usize, place: usize) -> bool
    ensures { IsTrue result ↔ HasRest (slice_index_or cells.now number cells_.Null) place [] }
{
    match cells.get(number) {
        Some(cell) => ends_here(cell, place),
        None => false,
    }
}

/// Whether no text with one of the numbers ends at a place.
fn spells_none(cells: &[Cell], place: usize, numbers: &[usize]) -> bool
    ensures { IsTrue result ↔ SpellsNone cells.now place numbers.now [] }
{
    for number in numbers {
        if ends_at(cells, *number, place) {
            return false;
        }
    }
    true
}

/// Whether the text with a number has a character at a place.
fn is_at(cells: &[Cell], number: usize, place: usize, code: u32) -> bool
    ensures { IsTrue result ↔ (code_in (slice_index_or cells.now number cells_.Null) place ≡ Some code) }
{
    match code_of(cells, number, place) {
        Some(other) => other == code,
        None => false,
    }
}

/// Those of the numbers whose text has a character at a place.
fn following(
    alloc: Global,
    cells: &[Cell],
    place: usize,
    numbers: &[usize],
    code: u32,
) -> Result<Vec<usize>, Memory>
    ensures { IfOk result (λ next. AreFollowing cells.now place numbers.now code next.items) }
{
    let mut next = Vec::new(alloc);
    for number in numbers {
        if is_at(cells, *number, place, code) {
            next.push(*number)?;
        }
    }
    Ok(next)
}

/// A code up to which what was read is none of the codes but this one.
fn alike(read: Option<u32>, code: u32) -> u32
    ensures reached { code ≤ result }
    ensures alike { (other : ℕ) → code ≤ other → other ≤ result → (read ≡ Some other) ↔ (read ≡ Some code) }
{
    match read {
        Some(other) if other == code => code,
        Some(other) if code < other => other - 1,
        _ => u32::MAX,
    }
}

/// A code up to which the same numbers follow each code.
fn alike_up_to(cells: &[Cell], place: usize, numbers: &[usize], code: u32) -> u32
    ensures reached { code ≤ result }
    ensures alike { (other : ℕ) → code ≤ other → other ≤ result → (number : ℕ) → Contains numbers.now number
        → (code_in (slice_index_or cells.now number cells_.Null) place ≡ Some other)
        ↔ (code_in (slice_index_or cells.now number cells_.Null) place ≡ Some code) }
{
    let mut last = u32::MAX;
    for number in numbers {
        last = last.min(alike(code_of(cells, *number, place), code));
    }
    last
}

/// How many characters were read after one more; none count where no text is left.
fn next_place(place: usize, next: &[usize]) -> usize
    requires { place ≤ 1000 }
    ensures { result ≡ place_after place next.now }
{
    if next.is_empty() { 0 } else { place + 1 }
}

impl<'a> Machine for Spelling<'a> {
    type State = (usize, Vec<usize>);

    type Scratch = ();

    ghost IsState = { λ spelling state. All FitsSlot spelling.cells.now × (state.0 ≤ 1000) };

    ghost Words = { λ spelling state word. SpellsNone spelling.cells.now state.0 state.1.items word };

    ghost IsEnd = { λ spelling state last. Unit {0} };

    fn accepts(&self, state: &(usize, Vec<usize>)) -> bool {
        spells_none(self.cells, state.0, state.1.as_slice())
    }

    fn step(
        &self,
        alloc: Global,
        state: &(usize, Vec<usize>),
        first: u32,
        _scratch: &mut (),
    ) -> Result<((usize, Vec<usize>), u32), Memory> {
        let numbers = state.1.as_slice();
        let next = following(alloc, self.cells, state.0, numbers, first)?;
        let last = alike_up_to(self.cells, state.0, numbers, first);
        let place = next_place(state.0, next.as_slice());
        Ok(((place, next), last))
    }

    ghost same_words = { λ spelling one other equal. same_spellings spelling.cells.now one.0 other.0 one.1.items
        other.1.items equal };
}

/// The numbers below a count.
fn numbers_below(alloc: Global, count: usize) -> Result<Vec<usize>, Memory>
    ensures { IfOk result (λ all. (k : ℕ) → k < count → Contains all.items k) }
{
    let mut all = Vec::new(alloc);
    for number in 0..count {
        all.push(number)?;
    }
    Ok(all)
}

/// The automaton of all texts but those of a list.
pub fn others_dfa(alloc: Global, cells: &[Cell]) -> Result<Dfa, Memory>
    requires { All FitsSlot cells.now }
    ensures { IfOk result (λ dfa. (word : List ℕ) → All IsCharacter word → Accepts dfa word
        ↔ (¬ Contains cells.now (cells_.Text word))) }
{
    let numbers = numbers_below(alloc, cells.len())?;
    explore(alloc, &Spelling { cells }, (0, numbers), &mut ())
}
