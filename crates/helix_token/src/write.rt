//! Tokens, written.

ghost use Rattle.std.specs.Prelude.{◌≡◌, [], ◌∷◌, ◌++◌, IfOk, OnOk};
ghost use Rattle.helix_values.specs.View.{cell_of};
ghost use Rattle.helix_output.specs.Fitting.{FitsFields, FitsKind};
ghost use Rattle.helix_token.specs.Inner.Strings.{head_tokens, last_tokens, string_tokens};
ghost use Rattle.helix_token.specs.Token.{cell_string, cell_strings, token_of_strings, token_text};

use helix_base::{Bytes, List, Memory, Text};
use helix_profile::Field;
use helix_texts::cell_text;
use helix_values::{CellRef, Kind, RowBuf};
use json::Writer;
use std::alloc::Global;

/// The token's text of a row, without a line feed. No clause says what it costs: time and memory in proportion to the
/// text.
pub fn write_token(
    alloc: Global,
    identity: &[u8; 32],
    fields: &[Field],
    row: &RowBuf,
) -> Result<Bytes, Memory>
    requires { FitsFields fields.now row.now }
    ensures { IfOk result (λ bytes. bytes ≡ token_text identity.now fields.now row.now) }
{
    let strings = row_strings(alloc, fields, row)?;
    Ok(Bytes::from_vec(text_of_strings(alloc, identity, strings.as_slice())?))
}

/// The strings of a row.
fn row_strings(alloc: Global, fields: &[Field], row: &RowBuf) -> Result<List<Text>, Memory>
    requires { FitsFields fields.now row.now }
    ensures { IfOk result (λ strings. strings ≡ cell_strings fields.now row.now) }
{
    let mut strings = List::new(alloc);
    for i in 0..fields.len() {
        strings.push(string_of(alloc, &fields[i], row.slot(i).view())?)?;
    }
    Ok(strings)
}

/// The string of a cell.
pub(crate) fn string_of(alloc: Global, field: &Field, cell: CellRef<'_>) -> Result<Text, Memory>
    requires { FitsKind field.now.kind (cell_of cell) }
    ensures { IfOk result (λ text. text ≡ cell_string field.now (cell_of cell.entry)) }
{
    match cell {
        CellRef::Null => Text::from_codes(alloc, ['n' as u32].as_slice()),
        _ => marked(alloc, &cell_text(alloc, field.kind, cell)?),
    }
}

/// A text after `=`.
#[tactic(auto, using(helix_base::specs::Inner::ScalarLaws::written_steps))]
fn marked(alloc: Global, text: &Text) -> Result<Text, Memory>
    ensures { IfOk result (λ made. made ≡ 61 ∷ text.now) }
{
    let mut made = Text::new(alloc);
    made.push('=' as u32)?;
    for code in text.codes() {
        made.push(*code)?;
    }
    Ok(made)
}

/// The text of a token with an identity and these strings.
pub(crate) fn text_of_strings(
    alloc: Global,
    identity: &[u8; 32],
    strings: &[Text],
) -> Result<Vec<u8>, Memory>
    ensures { IfOk result (λ text. text.items ≡ token_of_strings identity.now strings.now) }
{
    let mut writer = Writer::new(Vec::new(alloc));
    write_head(alloc, &mut writer, identity)?;
    write_strings(alloc, &mut writer, strings)?;
    writer.end_array()?;
    writer.end_object()?;
    Ok(writer.into_inner())
}

/// Writes what comes before the strings.
fn write_head(alloc: Global, writer: &mut Writer, identity: &[u8; 32]) -> Result<(), Memory>
    requires { writer.old.tokens ≡ [] }
    ensures tokens { OnOk result (writer.new.tokens ≡ head_tokens identity.now) }
    ensures before { writer.new.before ≡ writer.old.before }
{
    let digits = hex::encode(alloc, identity)?;
    writer.begin_object()?;
    writer.key("format")?;
    writer.string("helix-token-1")?;
    writer.key("identity")?;
    writer.string(digits.as_str())?;
    writer.key("row")?;
    writer.begin_array()?;
    Ok(())
}

/// Writes the strings.
fn write_strings(alloc: Global, writer: &mut Writer, strings: &[Text]) -> Result<(), Memory>
    ensures tokens { OnOk result (writer.new.tokens ≡ writer.old.tokens ++ string_tokens strings.now) }
    ensures before { writer.new.before ≡ writer.old.before }
{
    for string in strings {
        let written = string.written(alloc)?;
        writer.string(written.as_str())?;
    }
    Ok(())
}
