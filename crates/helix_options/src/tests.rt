mod build;
mod flags;
mod holding;

use build::{Step, constraints};
use flags::{a_null_flag, first_regions, one_flag};
use helix_profile::all_satisfied;
use holding::{all_paths, holding, is_row_of, row_of};
use std::test::Fail;

/// Three fields, each null, 1 or 2 where it may be null, and the number of paths that there are.
type Case = ([bool; 3], &'static [Step], usize);

const CASES: [Case; 15] = [
    ([true, true, true], &[], 1),
    (
        [true, true, true],
        &[Step::Equal(0, 1), Step::Equal(1, 1), Step::AnyOf],
        2,
    ),
    (
        [false, true, true],
        &[Step::Equal(0, 1), Step::Equal(1, 1), Step::If],
        2,
    ),
    ([true, true, true], &[Step::Less(0, 1)], 3),
    ([false, true, true], &[Step::Less(0, 1)], 2),
    ([false, false, true], &[Step::Less(0, 1), Step::Not], 1),
    (
        [true, true, true],
        &[Step::Null(0, true), Step::Less(0, 1), Step::AnyOf],
        3,
    ),
    (
        [true, true, true],
        &[
            Step::Equal(0, 1),
            Step::Equal(1, 1),
            Step::Equal(2, 1),
            Step::IfElse,
        ],
        3,
    ),
    (
        [true, true, true],
        &[Step::Equal(0, 1), Step::Less(1, 2), Step::AllOf, Step::Not],
        4,
    ),
    (
        [true, true, true],
        &[
            Step::Null(0, true),
            Step::Null(1, true),
            Step::AnyOf,
            Step::Null(0, false),
        ],
        1,
    ),
    ([false, true, true], &[Step::Null(0, true)], 0),
    // two tests of a value that clash, of a value that may be null, and of the alternatives of two fields
    (
        [false, true, true],
        &[Step::Equal(0, 1), Step::Equal(0, 2)],
        0,
    ),
    (
        [true, true, true],
        &[Step::Equal(0, 1), Step::Equal(0, 2)],
        1,
    ),
    (
        [false, false, true],
        &[
            Step::Equal(0, 1),
            Step::Equal(1, 1),
            Step::AllOf,
            Step::Equal(0, 2),
            Step::Equal(1, 2),
            Step::AllOf,
            Step::AnyOf,
        ],
        2,
    ),
    (
        [true, true, true],
        &[
            Step::Equal(0, 1),
            Step::Equal(1, 1),
            Step::AnyOf,
            Step::Equal(0, 2),
            Step::Not,
            Step::Equal(2, 1),
            Step::AllOf,
            Step::AnyOf,
            Step::Less(1, 2),
            Step::If,
            Step::Not,
        ],
        8,
    ),
];

#[test]
fn one_path_holds_where_the_constraints_are_satisfied(rt: HostRuntime) -> Result<(), Fail> {
    for (nullable, steps, count) in CASES {
        let constraints = constraints(rt.alloc(), steps)?;
        let paths = all_paths(rt.alloc(), nullable.as_slice(), constraints.as_slice())?;
        assert_eq!(rt; paths.len(), count);
        for code in 0..27 {
            if is_row_of(nullable, code) {
                let row = row_of(rt.alloc(), code)?;
                let found = holding(rt.alloc(), paths.as_slice(), row.as_slice())?;
                let satisfied = all_satisfied(constraints.as_slice(), row.as_slice(), true);
                assert_eq!(rt; found, usize::from(satisfied));
            }
        }
    }
    Ok(())
}

#[test]
fn a_part_has_regions(rt: HostRuntime) -> Result<(), Fail> {
    let free = first_regions(rt.alloc(), &one_flag(rt.alloc())?)?;
    assert_eq!(rt; free, Some(1));
    let null = first_regions(rt.alloc(), &a_null_flag(rt.alloc())?)?;
    assert_eq!(rt; null, Some(1));
    Ok(())
}
