ghost use Rattle.std.specs.Prelude.{◌≡◌, ◌<◌, ◌≢◌, IfOk};
ghost use Rattle.std.specs.List.{All};
ghost use Rattle.helix_forest.specs.Closing.{HasEndsBelow};

use crate::{ForestFault, check_forest};
use helix_base::Memory;
use helix_profile::{Compare, Relation};
use helix_values::Offset;
use std::alloc::Global;
use std::test::Fail;

/// How many fields each test has.
const FIELDS: u32 = 8;

/// Fields that are related as equal.
fn related(left: u32, right: u32) -> Relation
    ensures left { result.left ≡ left }
    ensures right { result.right ≡ right }
{
    Relation {
        left,
        compare: Compare::Equal,
        right,
        offset: Offset::Plain(0),
    }
}

/// Relations of these pairs of different fields.
fn relations(alloc: Global, pairs: &[(u32, u32)]) -> Result<Vec<Relation>, Memory>
    ensures { IfOk result (λ relations. All (HasEndsBelow FIELDS) relations.items) }
{
    let mut relations = Vec::new(alloc);
    for (left, right) in pairs {
        if *left < FIELDS && *right < FIELDS && *left != *right {
            relations.push(related(*left, *right))?;
        }
    }
    Ok(relations)
}

fn answer(alloc: Global, pairs: &[(u32, u32)]) -> Result<(), ForestFault> {
    let relations = relations(alloc, pairs)?;
    check_forest(alloc, FIELDS, relations.as_slice())
}

#[test]
fn forests(rt: HostRuntime) -> Result<(), Fail> {
    let cases: [&[(u32, u32)]; 6] = [
        &[],
        &[(0, 1)],
        &[(0, 1), (1, 0), (0, 1)],
        &[(0, 1), (1, 2), (2, 3), (3, 4), (2, 1), (0, 1), (4, 3)],
        &[
            (3, 0),
            (3, 1),
            (2, 3),
            (3, 4),
            (5, 3),
            (6, 3),
            (3, 7),
            (1, 3),
        ],
        &[(6, 7), (0, 1), (2, 3), (1, 2), (7, 6), (7, 0), (3, 2)],
    ];
    for pairs in cases {
        assert_eq!(rt; answer(rt.alloc(), pairs), Ok(()), "{pairs:?}");
    }
    Ok(())
}

#[test]
fn cycles(rt: HostRuntime) -> Result<(), Fail> {
    let cases: [(&[(u32, u32)], u64); 6] = [
        (&[(0, 1), (1, 2), (2, 0)], 2),
        (&[(0, 1), (1, 2), (2, 3), (3, 0)], 3),
        (&[(0, 1), (1, 0), (1, 2), (2, 1), (0, 2), (2, 0)], 4),
        (
            &[
                (0, 1),
                (2, 3),
                (4, 5),
                (6, 7),
                (1, 2),
                (5, 6),
                (3, 4),
                (7, 0),
                (0, 2),
            ],
            7,
        ),
        (&[(5, 4), (4, 3), (3, 5), (0, 1), (1, 2), (2, 0)], 2),
        (&[(7, 0), (7, 1), (7, 2), (7, 3), (1, 7), (3, 1)], 5),
    ];
    for (pairs, index) in cases {
        let closed = Err(ForestFault::Cycle { index });
        assert_eq!(rt; answer(rt.alloc(), pairs), closed, "{pairs:?}");
    }
    Ok(())
}
