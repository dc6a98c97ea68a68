//! What links answer of numbers, moments, texts and truth values.

ghost use Rattle.std.specs.List.{All};
ghost use Rattle.helix_links.specs.Relations.{IsRelationOf};
ghost use Rattle.helix_values.specs.Class.{class_of_kind, booleans, numbers, strings, moments};

use crate::{PairLink, SidedRelation};
use helix_base::{Alphabet, Memory};
use helix_pairs::End;
use helix_profile::{Compare, Relation};
use helix_search::{Exclusion, Link};
use helix_values::laws::universes_lie_in_the_widest_ones;
use helix_values::{CellRef, Kind, Mark, Offset, in_universe};
use std::alloc::Global;
use std::test::Fail;

const DAY: i64 = 86_400_000;

/// The values that a mark admits, or those that are left after an excluded one.
#[derive(Clone, Copy, Debug, PartialEq, Eq)]
enum Admitted {
    All,
    From(i128),
    After(i128),
    Nothing,
}

/// The mark of the lower bound, the test of the upper one, the mark of its inverse, and what is left after an excluded
/// child.
type Answers = (Admitted, bool, Admitted, Admitted);

/// A number, a moment, 0 or 1, or the length of a text.
fn whole_shown(cell: CellRef<'_>) -> i128 {
    match cell {
        CellRef::Null => -1,
        CellRef::Bool(truth) => i128::from(truth),
        CellRef::Number(units) => units,
        CellRef::Moment(at) => i128::from(at),
        CellRef::Text(codes) => codes.len() as i128,
    }
}

fn admitted_by(mark: Option<Mark<'_>>) -> Admitted {
    match mark {
        None => Admitted::Nothing,
        Some(Mark::Start) => Admitted::All,
        Some(Mark::At(bound)) => Admitted::From(whole_shown(bound)),
        Some(Mark::After(bound)) => Admitted::After(whole_shown(bound)),
    }
}

/// The answers of a link of relations; none where one of the cells isn't a value of the kind.
fn answers(
    alloc: Global,
    kind: Kind,
    relations: &[SidedRelation],
    parent: CellRef<'_>,
    child: CellRef<'_>,
) -> Result<Option<Answers>, Memory>
    requires { All (λ sided. IsRelationOf (class_of_kind kind) sided.relation) relations.now }
{
    universes_lie_in_the_widest_ones();
    let link = PairLink::of(alloc, kind, relations)?;
    if !in_universe(kind, parent) || !in_universe(kind, child) {
        return Ok(None);
    }
    let left = match link.excludes(parent, child) {
        Exclusion::No => Admitted::All,
        Exclusion::Until(mark) => admitted_by(Some(mark)),
        Exclusion::Rest => Admitted::Nothing,
    };
    Ok(Some((
        admitted_by(link.lower(parent)),
        link.passes_upper(parent, child),
        admitted_by(link.inverse(child)),
        left,
    )))
}

/// A relation of numbers.
fn by_units(compare: Compare, units: u8) -> Relation
    ensures { IsRelationOf numbers result }
{
    Relation {
        left: 0,
        compare,
        right: 1,
        offset: Offset::Plain(i128::from(units)),
    }
}

/// A relation of moments.
fn by_months(compare: Compare, months: u8) -> Relation
    ensures { IsRelationOf moments result }
{
    Relation {
        left: 0,
        compare,
        right: 1,
        offset: Offset::Months(i64::from(months)),
    }
}

/// A relation of texts or truth values.
fn equality() -> Relation
    ensures texts { IsRelationOf strings result }
    ensures truth_values { IsRelationOf booleans result }
{
    Relation {
        left: 0,
        compare: Compare::Equal,
        right: 1,
        offset: Offset::Plain(0),
    }
}

#[test]
fn numbers_are_linked(rt: HostRuntime) -> Result<(), Fail> {
    let all = Admitted::All;
    // The parent is 5, and the offset is 2.
    let cases: [(Compare, bool, End, i128, Answers); 9] = [
        (
            Compare::Above,
            true,
            End::Left,
            8,
            (Admitted::From(8), true, all, all),
        ),
        (
            Compare::Above,
            false,
            End::Left,
            8,
            (all, false, Admitted::From(6), all),
        ),
        (
            Compare::Above,
            true,
            End::Right,
            2,
            (all, true, Admitted::From(5), all),
        ),
        (
            Compare::Above,
            true,
            End::Right,
            3,
            (all, false, Admitted::From(6), all),
        ),
        (
            Compare::AtMost,
            true,
            End::Right,
            2,
            (Admitted::From(3), true, all, all),
        ),
        (
            Compare::Equal,
            true,
            End::Left,
            7,
            (Admitted::From(7), true, Admitted::From(5), all),
        ),
        (
            Compare::Equal,
            false,
            End::Left,
            7,
            (all, true, all, Admitted::From(8)),
        ),
        (
            Compare::Equal,
            false,
            End::Right,
            3,
            (all, true, all, Admitted::From(4)),
        ),
        (Compare::Equal, false, End::Right, 7, (all, true, all, all)),
    ];
    for (compare, sign, child, value, want) in cases {
        let relation = by_units(compare, 2);
        let relations = [SidedRelation {
            relation,
            sign,
            child,
        }];
        let parent = CellRef::Number(5);
        let found = answers(
            rt.alloc(),
            Kind::Decimal,
            &relations,
            parent,
            CellRef::Number(value),
        )?;
        assert_eq!(rt; found, Some(want), "{compare:?} {sign} {child:?}");
    }
    Ok(())
}

#[test]
fn moments_are_linked(rt: HostRuntime) -> Result<(), Fail> {
    let all = Admitted::All;
    let day = i128::from(DAY);
    // January has the days from 0 to 30, and the 28th of February is day 58; the offset is a month.
    let cases: [(Compare, bool, End, i64, i64, Answers); 5] = [
        (
            Compare::AtLeast,
            true,
            End::Left,
            30,
            58,
            (Admitted::From(58 * day), true, all, all),
        ),
        (
            Compare::Equal,
            true,
            End::Right,
            58,
            28,
            (
                Admitted::From(27 * day),
                true,
                Admitted::From(58 * day),
                all,
            ),
        ),
        (
            Compare::Equal,
            false,
            End::Right,
            58,
            27,
            (all, true, all, Admitted::From(31 * day)),
        ),
        (
            Compare::Equal,
            false,
            End::Left,
            30,
            58,
            (all, true, all, Admitted::From(58 * day + 1)),
        ),
        (
            Compare::Above,
            true,
            End::Right,
            58,
            0,
            (all, true, Admitted::From(31 * day + 1), all),
        ),
    ];
    for (compare, sign, child, parent_day, child_day, want) in cases {
        let relation = by_months(compare, 1);
        let relations = [SidedRelation {
            relation,
            sign,
            child,
        }];
        let parent = CellRef::Moment(parent_day * DAY);
        let found = answers(
            rt.alloc(),
            Kind::DateTime,
            &relations,
            parent,
            CellRef::Moment(child_day * DAY),
        )?;
        assert_eq!(rt; found, Some(want), "{compare:?} {sign} {child:?}");
    }
    Ok(())
}

/// The answers of two relations of texts or truth values, with their signs.
fn equated(
    alloc: Global,
    signs: (bool, bool),
    parent: CellRef<'_>,
    child: CellRef<'_>,
) -> Result<Option<Answers>, Memory> {
    let relations = [
        SidedRelation {
            relation: equality(),
            sign: signs.0,
            child: End::Left,
        },
        SidedRelation {
            relation: equality(),
            sign: signs.1,
            child: End::Right,
        },
    ];
    match parent {
        CellRef::Text(_) => answers(
            alloc,
            Kind::Text(Alphabet::Unicode),
            &relations,
            parent,
            child,
        ),
        _ => answers(alloc, Kind::Boolean, &relations, parent, child),
    }
}

#[test]
fn texts_and_truth_values_are_linked(rt: HostRuntime) -> Result<(), Fail> {
    let all = Admitted::All;
    let short = CellRef::Text(&[98]);
    let long = CellRef::Text(&[97, 98]);
    let cases: [((bool, bool), CellRef<'_>, CellRef<'_>, Answers); 9] = [
        (
            (true, true),
            long,
            short,
            (Admitted::From(2), true, Admitted::From(1), all),
        ),
        (
            (true, true),
            short,
            long,
            (Admitted::From(1), false, Admitted::From(2), all),
        ),
        (
            (false, false),
            short,
            short,
            (all, true, all, Admitted::After(1)),
        ),
        ((false, false), short, long, (all, true, all, all)),
        (
            (true, false),
            short,
            short,
            (
                Admitted::From(1),
                true,
                Admitted::From(1),
                Admitted::After(1),
            ),
        ),
        (
            (true, true),
            CellRef::Bool(true),
            CellRef::Bool(true),
            (Admitted::From(1), true, Admitted::From(1), all),
        ),
        (
            (true, true),
            CellRef::Bool(false),
            CellRef::Bool(true),
            (Admitted::From(0), false, Admitted::From(1), all),
        ),
        (
            (false, false),
            CellRef::Bool(true),
            CellRef::Bool(true),
            (all, true, all, Admitted::After(1)),
        ),
        (
            (false, false),
            CellRef::Bool(true),
            CellRef::Bool(false),
            (all, true, all, all),
        ),
    ];
    for (signs, parent, child, want) in cases {
        assert_eq!(rt;
            equated(rt.alloc(), signs, parent, child)?,
            Some(want),
            "{signs:?}"
        );
    }
    Ok(())
}
