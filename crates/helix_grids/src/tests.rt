//! Grids over numbers and moments.

ghost use Rattle.std.specs.Prelude.{◌↔◌, IsTrue};
ghost use Rattle.std.specs.List.{All};
ghost use Rattle.helix_grids.specs.Tests.{NamesLevelBelow};

mod scan;
mod sets;

use crate::{Grid, GridTest, Numbers};
use helix_base::Memory;
use helix_ladders::{Calendar, Decades, Scale};
use std::alloc::Global;
use std::process::Abort;
use std::test::Fail;

/// A tenth, in units of 10^-15.
const TENTH: i128 = 100_000_000_000_000;

/// The greatest number, 10^20, in units of 10^-15.
const GREATEST: i128 = 100_000_000_000_000_000_000_000_000_000_000_000;

/// The last millisecond of the year 9999.
const LAST_MOMENT: i128 = 315_537_897_599_999;

/// Whether the level that a test names, if any, is below this number.
fn names_level_below(levels: u32, test: &GridTest) -> bool
    ensures { IsTrue result ↔ NamesLevelBelow levels test.now }
{
    match test {
        GridTest::On(level) | GridTest::Off(level) => *level < levels,
        _ => true,
    }
}

/// Whether each of these tests names a level below this number, if any.
fn name_levels_below(levels: u32, tests: &[GridTest]) -> bool
    ensures { IsTrue result ↔ All (NamesLevelBelow levels) tests.now }
{
    tests.iter().all(|test| names_level_below(levels, test))
}

/// A grid of all these tests at once.
fn whole<S: Scale + Copy + Drop>(
    rt: &impl Abort,
    alloc: Global,
    scale: S,
    level: u32,
    tests: &[GridTest],
) -> Result<Grid<S>, Memory> {
    let levels = scale.levels();
    assert!(rt; level < levels);
    assert!(rt; name_levels_below(levels, tests));
    Grid::of(alloc, scale, level, tests)
}

/// A grid that met these tests.
fn grid<S: Scale + Copy>(
    rt: &impl Abort,
    alloc: Global,
    scale: S,
    level: u32,
    tests: &[GridTest],
) -> Result<Grid<S>, Memory> {
    let levels = scale.levels();
    assert!(rt; level < levels);
    let mut grid = Grid::open(alloc, scale, level)?;
    for test in tests {
        assert!(rt; names_level_below(levels, test));
        grid.meet(test)?;
    }
    Ok(grid)
}

fn numbers(alloc: Global, items: &[i128]) -> Result<Numbers, Memory> {
    let mut numbers = Numbers::new(alloc);
    for item in items {
        numbers.push(*item)?;
    }
    Ok(numbers)
}

/// The first values of a grid, at most twenty of them.
fn listed<S: Scale>(alloc: Global, grid: &Grid<S>, bound: i128) -> Result<Vec<i128>, Memory> {
    let mut values = Vec::new(alloc);
    let mut from = bound;
    for _ in 0..20u8 {
        let Some(value) = grid.at_or_after(from) else {
            break;
        };
        values.push(value)?;
        from = value.saturating_add(1);
    }
    Ok(values)
}

#[test]
fn lists_the_values_that_pass(rt: HostRuntime) -> Result<(), Fail> {
    let alloc = rt.alloc();
    let tenths = [
        GridTest::On(14),
        GridTest::Off(15),
        GridTest::Least(0),
        GridTest::Most(12 * TENTH),
    ];
    let values = listed(alloc, &grid(&rt, alloc, Decades, 0, &tenths)?, i128::MIN)?;
    let want = [
        TENTH,
        2 * TENTH,
        3 * TENTH,
        4 * TENTH,
        5 * TENTH,
        6 * TENTH,
        7 * TENTH,
        8 * TENTH,
        9 * TENTH,
        11 * TENTH,
        12 * TENTH,
    ];
    assert_eq!(rt; values.as_slice(), want.as_slice());

    // The months between 2024-01-15 and 2024-04-01.
    let months = [
        GridTest::On(5),
        GridTest::Least(63_840_873_600_000),
        GridTest::Most(63_847_526_399_999),
    ];
    let values = listed(alloc, &grid(&rt, alloc, Calendar, 4, &months)?, 0)?;
    let want = [63_842_342_400_000, 63_844_848_000_000];
    assert_eq!(rt; values.as_slice(), want.as_slice());

    // The last hour, after 9999-12-31T22:00.
    let hours = [GridTest::Least(315_537_811_200_000 + 22 * 3_600_000 + 1)];
    let values = listed(alloc, &grid(&rt, alloc, Calendar, 3, &hours)?, 0)?;
    assert_eq!(rt;
        values.as_slice(),
        [315_537_811_200_000 + 23 * 3_600_000].as_slice()
    );
    Ok(())
}

#[test]
fn answers_at_the_ends(rt: HostRuntime) -> Result<(), Fail> {
    let alloc = rt.alloc();
    let cases = [
        (0, i128::MIN, Some(-GREATEST)),
        (15, -GREATEST, Some(-GREATEST)),
        (15, GREATEST - 1, Some(GREATEST)),
        (15, GREATEST, Some(GREATEST)),
        (0, GREATEST + 1, None),
        (0, i128::MAX, None),
    ];
    for (level, bound, want) in cases {
        let all = grid(&rt, alloc, Decades, level, &[])?;
        assert_eq!(rt; all.at_or_after(bound), want, "{bound} on {level}");
    }
    let none = [GridTest::On(15), GridTest::Off(15)];
    let nothing = grid(&rt, alloc, Decades, 0, &none)?;
    let apart = [GridTest::Least(5), GridTest::Most(4)];
    let empty = grid(&rt, alloc, Calendar, 0, &apart)?;
    let beyond = [GridTest::Least(i128::MIN), GridTest::Most(i128::MAX)];
    let whole = grid(&rt, alloc, Calendar, 0, &beyond)?;
    for bound in [i128::MIN, -GREATEST, -1, 0, 4, 5, GREATEST, i128::MAX] {
        assert_eq!(rt; nothing.at_or_after(bound), None);
        assert_eq!(rt; empty.at_or_after(bound), None);
        let want = if bound < 0 {
            Some(0)
        } else if bound <= LAST_MOMENT {
            Some(bound)
        } else {
            None
        };
        assert_eq!(rt; whole.at_or_after(bound), want, "{bound}");
    }
    Ok(())
}
