mod build;
mod shown;

use crate::{strict_not, tree_of};
use build::{Step, constraint};
use helix_base::{Bytes, Memory};
use shown::show;
use std::alloc::Global;
use std::test::Fail;

/// The tree of a constraint as a text: n is null, v is not null, the sign comes before the fields,
/// and ! says strict.
fn shown_tree(alloc: Global, steps: &[Step]) -> Result<Bytes, Memory> {
    let constraint = constraint(alloc, steps)?;
    show(alloc, &tree_of(alloc, &constraint)?)
}

/// The strict negation of a copy of that tree.
fn shown_negation(alloc: Global, steps: &[Step]) -> Result<Bytes, Memory> {
    let constraint = constraint(alloc, steps)?;
    let copy = tree_of(alloc, &constraint)?.copy(alloc)?;
    show(alloc, &strict_not(alloc, &copy)?)
}

#[test]
fn trees_of_constraints(rt: HostRuntime) -> Result<(), Fail> {
    let cases: [(&[Step], &[u8]); 4] = [
        (&[Step::Null(0, true), Step::Not], b"v0"),
        (&[Step::Equal(0), Step::Not], b"-0"),
        (
            &[Step::Equal(0), Step::Less(0, 1), Step::If],
            b"|(&(+0+01)-0)",
        ),
        (
            &[Step::Equal(0), Step::Equal(1), Step::If, Step::Not],
            b"&(+0-1)",
        ),
    ];
    for (steps, want) in cases {
        let tree = shown_tree(rt.alloc(), steps)?;
        assert_eq!(rt; tree.as_slice(), want);
    }
    Ok(())
}

#[test]
fn strict_negations_of_their_copies(rt: HostRuntime) -> Result<(), Fail> {
    let cases: [(&[Step], &[u8]); 3] = [
        (&[Step::Null(0, true), Step::Not], b"n0"),
        (&[Step::Equal(0), Step::Not], b"+0!"),
        (
            &[Step::Equal(0), Step::Less(0, 1), Step::AnyOf],
            b"&(-0!-01!)",
        ),
    ];
    for (steps, want) in cases {
        let negation = shown_negation(rt.alloc(), steps)?;
        assert_eq!(rt; negation.as_slice(), want);
    }
    Ok(())
}
