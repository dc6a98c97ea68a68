//! Rows as CSV (RFC 4180).

ghost use Rattle.std.specs.Prelude.{◌≡◌, ◌++◌, IfOk, OnOk};
ghost use Rattle.helix_run.specs.Inner.Rows.{rows_of};
ghost use Rattle.helix_run.specs.Output.{csv_text, flag_text, quoted};

use std::alloc::{AllocError, Global};

/// The head, which is the quoted name, and a line for each row of one cell.
pub fn csv_text(alloc: Global, name: &[u8], cells: &[Option<bool>]) -> Result<Vec<u8>, AllocError>
    ensures { IfOk result (λ text. text.items ≡ csv_text name.now (rows_of cells.now)) }
{
    let mut text = Vec::new(alloc);
    push_quoted(&mut text, name)?;
    text.push(b'\n')?;
    for cell in cells {
        text.extend_from_slice(flag_text(*cell))?;
        text.push(b'\n')?;
    }
    Ok(text)
}

/// Appends a text between quotes, in which each quote is doubled.
fn push_quoted(out: &mut Vec<u8>, text: &[u8]) -> Result<(), AllocError>
    ensures { OnOk result (out.new.items ≡ out.old.items ++ quoted text.now) }
{
    out.push(b'"')?;
    for byte in text {
        if *byte == b'"' {
            out.push(b'"')?;
        }
        out.push(*byte)?;
    }
    out.push(b'"')?;
    Ok(())
}

/// The text of a cell; null is the empty text.
fn flag_text(cell: Option<bool>) -> &'static [u8]
    ensures { result.now ≡ flag_text cell }
{
    match cell {
        Some(true) => b"true",
        Some(false) => b"false",
        None => b"",
    }
}
