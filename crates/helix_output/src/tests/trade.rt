//! Lines of a trade, with eight cells.

ghost use Rattle.std.specs.Prelude.{◌≡◌};
ghost use Rattle.helix_output.specs.Line.{line_of_row};

use super::{set, text_of, write_csv, write_json};
use crate::{LineBuf, csv_head, csv_next, json_close, json_open};
use helix_base::{Alphabet, Text};
use helix_profile::{Field, Fields};
use helix_values::{CellRef, Kind, RowBuf};
use std::alloc::Global;
use std::process::Abort;
use std::test::Fail;

fn kinds() -> [(&'static str, Kind); 8] {
    [
        ("tradeId", Kind::Text(Alphabet::Basic)),
        ("tradeDate", Kind::Date),
        ("settleDate", Kind::Date),
        ("currency", Kind::Text(Alphabet::Basic)),
        ("price", Kind::Decimal),
        ("quantity", Kind::Integer),
        ("isin", Kind::Text(Alphabet::Basic)),
        ("cancelled", Kind::Boolean),
    ]
}

fn head() -> &'static str {
    "\"tradeId\",\"tradeDate\",\"settleDate\",\"currency\",\"price\",\"quantity\",\"isin\",\"cancelled\"\n"
}

fn first_line() -> &'static str {
    "\"TR000000\",2024-01-02,2024-01-04,\"EUR\",0.01,1,\"AA0000000000\",true\n"
}

fn second_line() -> &'static str {
    "\"TR000000\",2024-01-02,2024-01-04,\"EUR\",0.01,1,\"AA0000000000\",\n"
}

fn third_line() -> &'static str {
    "\"TR000000\",2024-01-02,2024-01-04,\"EUR\",0.01,1,\"AA0000000001\",true\n"
}

fn first_object() -> &'static str {
    "\n{\"tradeId\":\"TR000000\",\"tradeDate\":\"2024-01-02\",\"settleDate\":\"2024-01-04\",\"currency\":\"EUR\",\
     \"price\":0.01,\"quantity\":1,\"isin\":\"AA0000000000\",\"cancelled\":true}"
}

fn second_object() -> &'static str {
    ",\n{\"tradeId\":\"TR000000\",\"tradeDate\":\"2024-01-02\",\"settleDate\":\"2024-01-04\",\"currency\":\"EUR\",\
     \"price\":0.01,\"quantity\":1,\"isin\":\"AA0000000000\",\"cancelled\":null}"
}

fn trade_line(alloc: Global) -> Result<LineBuf, Fail> {
    let mut fields = Fields::new(alloc);
    for (name, kind) in kinds() {
        fields.push(Field {
            name: Text::of(alloc, name)?,
            kind,
            nullable: true,
        })?;
    }
    Ok(LineBuf::open(alloc, fields.as_slice())?)
}

fn trade_row(rt: &impl Abort, alloc: Global) -> Result<RowBuf, Fail> {
    let mut row = RowBuf::open(alloc, 8)?;
    for (i, text) in [(0, "TR000000"), (3, "EUR"), (6, "AA0000000000")] {
        let text = Text::of(alloc, text)?;
        set(rt, &mut row, i, CellRef::Text(text.codes()));
    }
    let others = [
        (1, CellRef::Moment(63_839_750_400_000)),
        (2, CellRef::Moment(63_839_923_200_000)),
        (4, CellRef::Number(10_000_000_000_000)),
        (5, CellRef::Number(1_000_000_000_000_000)),
        (7, CellRef::Bool(true)),
    ];
    for (i, cell) in others {
        set(rt, &mut row, i, cell);
    }
    Ok(row)
}

/// Changes a cell, and writes it and those after it again.
fn change(rt: &impl Abort, line: &mut LineBuf, row: &mut RowBuf, i: usize, cell: CellRef<'_>)
    requires { line.old ≡ line_of_row line.old.fields row.old }
    ensures { line.new ≡ line_of_row line.new.fields row.new }
{
    assert!(rt; i < row.len());
    if let CellRef::Text(codes) = cell {
        assert!(rt; codes.len() <= 1000);
    }
    row.set(i, cell);
    assert!(rt; line.fits(row));
    csv_next(line, row, i);
}

#[test]
fn the_head_has_the_names(rt: HostRuntime) -> Result<(), Fail> {
    let mut line = trade_line(rt.alloc())?;
    assert_eq!(rt; text_of(line.bytes()), Some(""));
    csv_head(&mut line);
    assert_eq!(rt; text_of(line.bytes()), Some(head()));
    json_open(&mut line);
    assert_eq!(rt; text_of(line.bytes()), Some("["));
    json_close(&mut line);
    assert_eq!(rt; text_of(line.bytes()), Some("\n]\n"));
    Ok(())
}

#[test]
fn changed_cells_are_written_again(rt: HostRuntime) -> Result<(), Fail> {
    let mut line = trade_line(rt.alloc())?;
    let mut row = trade_row(&rt, rt.alloc())?;
    let isin = Text::of(rt.alloc(), "AA0000000001")?;
    assert!(rt; line.fits(&row));
    crate::csv_row(&mut line, &row);
    assert_eq!(rt; text_of(line.bytes()), Some(first_line()));
    change(&rt, &mut line, &mut row, 7, CellRef::Null);
    assert_eq!(rt; text_of(line.bytes()), Some(second_line()));
    change(&rt, &mut line, &mut row, 6, CellRef::Text(isin.codes()));
    change(&rt, &mut line, &mut row, 7, CellRef::Bool(true));
    assert_eq!(rt; text_of(line.bytes()), Some(third_line()));
    Ok(())
}

#[test]
fn objects_follow_each_other(rt: HostRuntime) -> Result<(), Fail> {
    let mut line = trade_line(rt.alloc())?;
    let mut row = trade_row(&rt, rt.alloc())?;
    write_json(&rt, &mut line, &row, true)?;
    assert_eq!(rt; text_of(line.bytes()), Some(first_object()));
    set(&rt, &mut row, 7, CellRef::Null);
    write_json(&rt, &mut line, &row, false)?;
    assert_eq!(rt; text_of(line.bytes()), Some(second_object()));
    write_csv(&rt, &mut line, &row);
    assert_eq!(rt; text_of(line.bytes()), Some(second_line()));
    Ok(())
}
