//! Bytes, characters and texts, put into a buffer that has room for them.

ghost use Rattle.std.specs.Prelude.{◌≡◌, ◌+◌, ◌*◌, ◌<◌, ◌≤◌, [], ◌∷◌, ◌++◌, length, flat_map, vec_len, vec_capacity, encode_utf8, IsTrue};
ghost use Rattle.std.specs.Char.{IsScalar};
ghost use Rattle.std.specs.List.{All};
ghost use Rattle.std.specs.Str.{all_scalars};
ghost use Rattle.json.specs.Print.{escape};
ghost use Rattle.helix_base.specs.Alphabet.{IsCharacterOf};
ghost use Rattle.helix_base.specs.declared.alphabet.Alphabet.TheVariants.{Unicode};
ghost use Rattle.helix_output.specs.Csv.{csv_string, doubled};
ghost use Rattle.helix_output.specs.JsonLines.{json_string};
ghost use Rattle.helix_output.specs.Inner.Cells.{comma_before};

/// Puts one byte.
#[inline(always)]
pub(crate) fn put(out: &mut Vec<u8>, byte: u8)
    requires { vec_len out.old < vec_capacity out.old }
    ensures bytes { out.new.items ≡ out.old.items ++ byte ∷ [] }
    ensures len { vec_len out.new ≡ vec_len out.old + 1 }
    ensures capacity { vec_capacity out.old ≤ vec_capacity out.new }
{
    out.push(byte).unwrap();
}

/// Puts some bytes.
pub(crate) fn put_slice(out: &mut Vec<u8>, bytes: &[u8])
    requires { vec_len out.old + length bytes.now ≤ vec_capacity out.old }
    ensures bytes { out.new.items ≡ out.old.items ++ bytes.now }
    ensures len { vec_len out.new ≡ vec_len out.old + length bytes.now }
    ensures capacity { vec_capacity out.old ≤ vec_capacity out.new }
{
    out.extend_from_slice(bytes).unwrap();
}

/// Puts a comma before each part but that of number 0.
#[inline(always)]
#[tactic(auto, using(crate::proofs::Joining::comma_steps))]
pub(crate) fn put_comma(out: &mut Vec<u8>, i: usize)
    requires { vec_len out.old < vec_capacity out.old }
    ensures bytes { out.new.items ≡ out.old.items ++ comma_before i }
    ensures len { vec_len out.new ≤ vec_len out.old + 1 }
    ensures capacity { vec_capacity out.old ≤ vec_capacity out.new }
{
    if i > 0 {
        put(out, b',');
    }
}

/// Puts a character in UTF-8.
#[inline(always)]
fn put_character(out: &mut Vec<u8>, code: u32)
    requires scalar { IsScalar code }
    requires room { vec_len out.old + 4 ≤ vec_capacity out.old }
    ensures bytes { out.new.items ≡ out.old.items ++ encode_utf8 code }
    ensures len { vec_len out.new ≤ vec_len out.old + 4 }
    ensures capacity { vec_capacity out.old ≤ vec_capacity out.new }
{
    if code < 0x80 {
        put(out, code as u8);
    } else {
        put_long(out, code);
    }
}

/// Puts a character of more than one byte.
fn put_long(out: &mut Vec<u8>, code: u32)
    requires scalar { IsScalar code }
    requires room { vec_len out.old + 4 ≤ vec_capacity out.old }
    ensures bytes { out.new.items ≡ out.old.items ++ encode_utf8 code }
    ensures len { vec_len out.new ≤ vec_len out.old + 4 }
    ensures capacity { vec_capacity out.old ≤ vec_capacity out.new }
{
    let mut bytes = [0; 4];
    put_slice(
        out,
        char::from_u32(code)
            .unwrap()
            .encode_utf8(&mut bytes)
            .as_bytes(),
    );
}

/// Puts a character between the quotes of CSV.
#[inline(always)]
fn put_doubled(out: &mut Vec<u8>, code: u32)
    requires scalar { IsScalar code }
    requires room { vec_len out.old + 4 ≤ vec_capacity out.old }
    ensures bytes { out.new.items ≡ out.old.items ++ flat_map doubled (encode_utf8 code) }
    ensures len { vec_len out.new ≤ vec_len out.old + 4 }
    ensures capacity { vec_capacity out.old ≤ vec_capacity out.new }
{
    if code == '"' as u32 {
        put_slice(out, b"\"\"");
    } else {
        put_character(out, code);
    }
}

/// Puts a character between the quotes of JSON.
#[inline(always)]
fn put_escaped(out: &mut Vec<u8>, code: u32)
    requires scalar { IsScalar code }
    requires printable { 32 ≤ code }
    requires room { vec_len out.old + 4 ≤ vec_capacity out.old }
    ensures bytes { out.new.items ≡ out.old.items ++ escape (encode_utf8 code) }
    ensures len { vec_len out.new ≤ vec_len out.old + 4 }
    ensures capacity { vec_capacity out.old ≤ vec_capacity out.new }
{
    if code == '"' as u32 {
        put_escape(out, b'"');
    } else if code == '\\' as u32 {
        put_escape(out, b'\\');
    } else {
        put_character(out, code);
    }
}

/// Puts a backslash and what it escapes.
fn put_escape(out: &mut Vec<u8>, mark: u8)
    requires { vec_len out.old + 2 ≤ vec_capacity out.old }
    ensures bytes { out.new.items ≡ out.old.items ++ 92 ∷ mark ∷ [] }
    ensures len { vec_len out.new ≤ vec_len out.old + 2 }
    ensures capacity { vec_capacity out.old ≤ vec_capacity out.new }
{
    put(out, b'\\');
    put(out, mark);
}

/// Puts a text between quotes, in which each quote is doubled.
pub(crate) fn put_csv_string(out: &mut Vec<u8>, text: &[u32])
    requires scalars { IsTrue (all_scalars text.now) }
    requires room { vec_len out.old + 4 * length text.now + 2 ≤ vec_capacity out.old }
    ensures bytes { out.new.items ≡ out.old.items ++ csv_string text.now }
    ensures len { vec_len out.new ≤ vec_len out.old + 4 * length text.now + 2 }
    ensures capacity { vec_capacity out.old ≤ vec_capacity out.new }
{
    put(out, b'"');
    for code in text {
        put_doubled(out, *code);
    }
    put(out, b'"');
}

/// Puts a text between quotes, in which quotes and backslashes are escaped. `serde_json` makes the same text, with two
/// allocations for each text that it is given.
pub(crate) fn put_json_string(out: &mut Vec<u8>, text: &[u32])
    requires characters { All (IsCharacterOf Unicode) text.now }
    requires room { vec_len out.old + 4 * length text.now + 2 ≤ vec_capacity out.old }
    ensures bytes { out.new.items ≡ out.old.items ++ json_string text.now }
    ensures len { vec_len out.new ≤ vec_len out.old + 4 * length text.now + 2 }
    ensures capacity { vec_capacity out.old ≤ vec_capacity out.new }
{
    put(out, b'"');
    for code in text {
        put_escaped(out, *code);
    }
    put(out, b'"');
}
