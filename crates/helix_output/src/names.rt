//! The names of fields, as they are written.

ghost use Rattle.std.specs.Prelude.{◌≡◌, ◌+◌, ◌≤◌, ◌++◌, map, OnOk, IfOk, IsTrue};
ghost use Rattle.std.specs.Str.{all_scalars};
ghost use Rattle.helix_output.specs.Csv.{csv_head_line, csv_string};
ghost use Rattle.helix_output.specs.JsonLines.{json_name};
ghost use Rattle.helix_output.specs.Inner.Cells.{comma_before};

use crate::put::{put_comma, put_csv_string};
use helix_base::{Bytes, List, Memory};
use helix_profile::{Field, Fields};
use serde_json::Value;
use std::alloc::Global;

/// The head of CSV.
pub(crate) fn csv_names(alloc: Global, fields: &[Field]) -> Result<Vec<u8>, Memory>
    ensures { IfOk result (λ head. head.items ≡ csv_head_line fields.now) }
{
    let mut head = Vec::new(alloc);
    for (i, field) in fields.iter().enumerate() {
        push_csv_name(&mut head, i, field.name.codes())?;
    }
    head.push(b'\n')?;
    Ok(head)
}

/// Appends a name between quotes, with a comma before it unless it is the first.
fn push_csv_name(out: &mut Vec<u8>, i: usize, name: &[u32]) -> Result<(), Memory>
    requires { IsTrue (all_scalars name.now) }
    ensures { OnOk result (out.new.items ≡ out.old.items ++ (comma_before i ++ csv_string name.now)) }
{
    out.reserve(4 * name.len() + 3)?;
    put_comma(out, i);
    put_csv_string(out, name);
    Ok(())
}

/// The names of JSON members, each with its colon.
pub(crate) fn json_names(alloc: Global, fields: &[Field]) -> Result<List<Bytes>, Memory>
    ensures { IfOk result (λ names. names ≡ map json_name fields.now) }
{
    let mut names = List::new(alloc);
    for field in fields {
        names.push(json_name(alloc, field)?)?;
    }
    Ok(names)
}

/// A name as a JSON string, with its colon.
fn json_name(alloc: Global, field: &Field) -> Result<Bytes, Memory>
    ensures { IfOk result (λ name. name ≡ json_name field.now) }
{
    let string = Value::String(field.name.written(alloc)?).to_string(alloc)?;
    let mut name = Vec::from_slice(alloc, string.as_bytes())?;
    name.push(b':')?;
    Ok(Bytes::from_vec(name))
}

/// Equal fields.
pub(crate) fn copy_fields(alloc: Global, fields: &[Field]) -> Result<Fields, Memory>
    ensures { IfOk result (λ copy. copy ≡ fields.now) }
{
    let mut copy = Fields::new(alloc);
    for field in fields {
        copy.push(field.copy(alloc)?)?;
    }
    Ok(copy)
}
