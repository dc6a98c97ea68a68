//! Paths of constraints, and how many of them hold in a row.

use crate::branch::Path;
use crate::open::demands_of;
use crate::paths::Paths;
use helix_base::{List, Memory};
use helix_profile::{Atom, Constraint, Test, satisfies};
use helix_tree::Literal;
use helix_values::Cell;
use std::alloc::Global;

/// All paths of all constraints.
pub fn all_paths(
    alloc: Global,
    nullable: &[bool],
    constraints: &[Constraint],
) -> Result<Vec<Path>, Memory> {
    let mut numbers = Vec::new(alloc);
    for number in 0..constraints.len().min(64) {
        numbers.push(number as u32)?;
    }
    let demands = demands_of(alloc, constraints, numbers.as_slice())?;
    let nullable = List::from_vec(Vec::from_slice(alloc, nullable)?);
    let mut paths = Paths::starting(alloc, nullable, demands)?;
    let mut all = Vec::new(alloc);
    while let Some(path) = paths.next()? {
        all.push(path)?;
    }
    Ok(all)
}

/// How many of the paths hold.
pub fn holding(alloc: Global, paths: &[Path], row: &[Cell]) -> Result<usize, Memory> {
    let mut count = 0;
    for path in paths {
        if path_holds(alloc, path.as_slice(), row)? && count < 64 {
            count += 1;
        }
    }
    Ok(count)
}

fn path_holds(alloc: Global, path: &[Literal], row: &[Cell]) -> Result<bool, Memory> {
    for literal in path {
        if !holds(alloc, literal, row)? {
            return Ok(false);
        }
    }
    Ok(true)
}

fn holds(alloc: Global, literal: &Literal, row: &[Cell]) -> Result<bool, Memory> {
    match literal {
        Literal::Null(field) => Ok(is_null(*field, row)),
        Literal::NotNull(field) => Ok(!is_null(*field, row)),
        Literal::Plain(atom, sign, strict) => {
            if is_null(atom.field, row) {
                Ok(!*strict)
            } else {
                Ok(satisfies(&Constraint::Atom(atom.copy(alloc)?), row, *sign))
            }
        }
        Literal::Joined(relation, sign, strict) => {
            if is_null(relation.left, row) || is_null(relation.right, row) {
                Ok(!*strict)
            } else {
                Ok(satisfies(&Constraint::Related(*relation), row, *sign))
            }
        }
    }
}

fn is_null(field: u32, row: &[Cell]) -> bool {
    let test = Test::IsNull(true);
    satisfies(&Constraint::Atom(Atom { field, test }), row, true)
}

/// The digits of a number to the base of three, the last first.
fn digits(code: u8) -> [u8; 3] {
    [code % 3, code / 3 % 3, code / 9 % 3]
}

/// A row of three cells: null, 1 or 2, by the digits of a number.
pub fn row_of(alloc: Global, code: u8) -> Result<Vec<Cell>, Memory> {
    let mut row = Vec::new(alloc);
    for digit in digits(code) {
        row.push(match digit {
            0 => Cell::Null,
            _ => Cell::Number(i128::from(digit)),
        })?;
    }
    Ok(row)
}

/// Whether no field is null that can't be.
pub fn is_row_of(nullable: [bool; 3], code: u8) -> bool {
    let [a, b, c] = digits(code);
    (nullable[0] || a > 0) && (nullable[1] || b > 0) && (nullable[2] || c > 0)
}
