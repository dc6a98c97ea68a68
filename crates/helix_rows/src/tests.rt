//! A walk over two parts of four fields, with lists of pairs as regions.

ghost use Rattle.std.specs.Prelude.{◌≡◌, [], ◌∷◌, IfOk, All, length};
ghost use Rattle.helix_rows.specs.Inner.Listing.{AreFour, AreNumbers, AreOfTwo, IsListed, IsSecond};
ghost use Rattle.helix_values.specs.Slot.{FitsSlot};

mod pairs;

use crate::follow::is_same;
use crate::tests::pairs::{Pair, Pairs, cell};
use crate::{Part, RowWalk};
use helix_base::{List, Memory, Quiet, Steps};
use helix_values::RowBuf;
use std::alloc::Global;
use std::test::Fail;

/// A row of four cells.
type Four = [Option<i128>; 4];

/// A region over two fields.
fn region(alloc: Global, fields: (u32, u32), rows: &[Pair]) -> Result<Pairs, Memory>
    requires { ¬ (rows.now ≡ []) }
    ensures fields { IfOk result (λ region. region.fields ≡ fields) }
    ensures rows { IfOk result (λ region. ¬ (region.rows.items ≡ [])) }
{
    Ok(Pairs {
        fields,
        rows: Vec::from_slice(alloc, rows)?,
        asked: 0,
    })
}

/// The part of two fields with some regions.
fn part(alloc: Global, fields: (u32, u32), regions: &[u32]) -> Result<Part, Memory>
    ensures { IfOk result (λ part. part ≡ record {
      fields = fields.0 ∷ fields.1 ∷ [];
      regions = regions.now;
    }) }
{
    let mut list = List::new(alloc);
    list.push(fields.0)?;
    list.push(fields.1)?;
    Ok(Part {
        fields: list,
        regions: List::from_vec(Vec::from_slice(alloc, regions)?),
    })
}

/// The four regions.
fn four(alloc: Global) -> Result<Vec<Pairs>, Memory>
    ensures { IfOk result (λ regions. AreFour (λ r. r.fields.0 ∷ r.fields.1 ∷ []) (λ r. IsListed r.rows.items)
        regions.items) }
{
    let mut regions = Vec::new(alloc);
    regions.push(region(
        alloc,
        (0, 2),
        &[(Some(2), None), (Some(0), Some(1)), (Some(2), Some(0))],
    )?)?;
    regions.push(region(alloc, (0, 2), &[(Some(0), Some(3)), (Some(1), Some(1))])?)?;
    regions.push(region(alloc, (1, 3), &[(None, Some(2))])?)?;
    regions.push(region(alloc, (1, 3), &[(Some(1), Some(3)), (Some(1), None)])?)?;
    Ok(regions)
}

/// The walk over fields 0 and 2 with regions 0 and 1, and fields 1 and 3 with regions 2 and 3, or with none.
fn walk(alloc: Global, second: &[u32]) -> Result<RowWalk<Pairs>, Memory>
    requires { IsSecond second.now }
    ensures fields { IfOk result (λ walk. walk.fields ≡ 4) }
    ensures parts { IfOk result (λ walk. AreOfTwo walk.parts) }
{
    let regions = four(alloc)?;
    let mut parts = List::new(alloc);
    parts.push(part(alloc, (0, 2), &[0, 1])?)?;
    parts.push(part(alloc, (1, 3), second)?)?;
    RowWalk::open(alloc, parts, regions, 4)
}

/// The rows of the walk with regions 2 and 3, in order.
fn rows() -> [Four; 15] {
    let (zero, one, two, three) = (Some(0), Some(1), Some(2), Some(3));
    [
        [zero, one, one, three],
        [zero, one, one, None],
        [zero, one, three, three],
        [zero, one, three, None],
        [zero, None, one, two],
        [zero, None, three, two],
        [one, one, one, three],
        [one, one, one, None],
        [one, None, one, two],
        [two, one, zero, three],
        [two, one, zero, None],
        [two, one, None, three],
        [two, one, None, None],
        [two, None, zero, two],
        [two, None, None, two],
    ]
}

/// How many first cells a row has in common with the one before it.
fn kept() -> [usize; 15] {
    [0, 3, 2, 3, 1, 2, 0, 3, 1, 0, 3, 2, 3, 1, 2]
}

/// Puts the cells into a row.
fn fill(row: &mut RowBuf, cells: Four)
    requires count { length row.old ≡ 4 }
    requires fit { All FitsSlot row.old }
    requires numbers { AreNumbers row.old }
    ensures count { length row.new ≡ 4 }
    ensures fit { All FitsSlot row.new }
    ensures numbers { AreNumbers row.new }
{
    for field in 0..4 {
        row.set(field, cell(cells[field]));
    }
}

/// Whether a row has these cells.
fn has(row: &RowBuf, cells: Four) -> bool
    requires { length row.now ≡ 4 }
{
    for field in 0..4 {
        if !is_same(row.slot(field).view(), cell(cells[field])) {
            return false;
        }
    }
    true
}

#[test]
fn gives_all_rows_in_order(rt: HostRuntime) -> Result<(), Fail> {
    let mut walk = walk(rt.alloc(), &[2, 3])?;
    let mut steps = Steps::new(Quiet);
    let kept = kept();
    for (index, want) in rows().iter().enumerate() {
        assert_eq!(rt; walk.step(&mut steps), Some(kept[index]), "row {index}");
        assert!(rt; has(walk.row(), *want), "row {index}");
    }
    assert_eq!(rt; walk.step(&mut steps), None);
    assert_eq!(rt; walk.step(&mut steps), None);
    Ok(())
}

/// Places that are sought, and the number of the next row.
fn places() -> [(Four, usize); 14] {
    let (zero, one, two, three) = (Some(0), Some(1), Some(2), Some(3));
    [
        ([Some(-1), None, None, None], 0),
        ([zero, zero, zero, zero], 0),
        ([zero, one, one, two], 0),
        ([zero, one, one, three], 1),
        ([zero, one, two, zero], 2),
        ([zero, one, None, zero], 4),
        ([zero, two, zero, zero], 4),
        ([zero, None, three, two], 6),
        ([one, one, one, None], 8),
        ([one, None, one, three], 9),
        ([two, one, one, zero], 11),
        ([two, None, zero, two], 14),
        ([two, None, None, two], 15),
        ([three, zero, zero, zero], 15),
    ]
}

/// Whether the walk gives the rows from a number on and then ends, each at 16 questions at most.
fn goes_on_from(walk: &mut RowWalk<Pairs>, out: &mut RowBuf, next: usize) -> bool
    requires fields { walk.old.fields ≡ 4 }
    requires parts { AreOfTwo walk.old.parts }
    requires count { length out.old ≡ 4 }
    ensures fields { walk.new.fields ≡ 4 }
    ensures parts { AreOfTwo walk.new.parts }
    ensures count { length out.new ≡ 4 }
{
    let mut steps = Steps::new(Quiet);
    let rows = rows();
    for index in next..15 {
        let asked = walk.asked();
        if !walk.advance(out, &mut steps) || !has(out, rows[index]) {
            return false;
        }
        if walk.asked().saturating_sub(asked) > 16 {
            return false;
        }
    }
    !walk.advance(out, &mut steps)
}

#[test]
fn goes_on_above_any_row(rt: HostRuntime) -> Result<(), Fail> {
    let mut walk = walk(rt.alloc(), &[2, 3])?;
    let mut row = RowBuf::open(rt.alloc(), 4)?;
    let mut out = RowBuf::open(rt.alloc(), 4)?;
    for (place, next) in places() {
        fill(&mut row, place);
        walk.seek_after(&row);
        assert!(rt; goes_on_from(&mut walk, &mut out, next), "above {place:?}");
    }
    Ok(())
}

#[test]
fn a_part_without_a_region_has_no_row(rt: HostRuntime) -> Result<(), Fail> {
    let mut walk = walk(rt.alloc(), &[])?;
    let mut steps = Steps::new(Quiet);
    assert_eq!(rt; walk.step(&mut steps), None);
    let mut row = RowBuf::open(rt.alloc(), 4)?;
    fill(&mut row, rows()[0]);
    walk.seek_after(&row);
    assert_eq!(rt; walk.step(&mut steps), None);
    assert_eq!(rt; walk.asked(), 0);
    Ok(())
}
