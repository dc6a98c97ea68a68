//! A text as its code points.

ghost use Rattle.std.specs.Prelude.{◌≡◌, [], ◌∷◌, ◌++◌, IfOk, OnErr, OnOk, IsTrue};
ghost use Rattle.std.specs.Char.{IsScalar};
ghost use Rattle.std.specs.Str.{all_scalars, chars, encode_utf8_all};
ghost use Rattle.std.specs.String.{string_bytes};

use crate::copy::TryCopy;
use crate::memory::Memory;
use std::alloc::{AllocError, Global};
use std::marker::Model;

/// A text, kept as its code points, each a Unicode scalar value.
#[derive(Debug, Drop)]
pub struct Text {
    codes: Vec<u32>,
}

impl Model for Text {
    ghost use Rattle.std.specs.Prelude.{List, ℕ, IsTrue};
    ghost use Rattle.std.specs.Str.{all_scalars};

    ghost Value = { List ℕ };

    ghost view = { λ text. text.codes.items };

    ghost invariant = { λ text. IsTrue (all_scalars text.codes.items) };
}

impl Text {
    /// The empty text.
    pub fn new(alloc: Global) -> Text
        ensures { result ≡ [] }
    {
        Text {
            codes: Vec::new(alloc),
        }
    }

    /// The text that a `&str` holds.
    #[tactic(auto, using(crate::specs::Inner::ScalarLaws::read_steps))]
    pub fn of(alloc: Global, text: &str) -> Result<Text, Memory>
        ensures { IfOk result (λ made. made ≡ chars text.now) }
    {
        Ok(Text {
            codes: code_points(alloc, text)?,
        })
    }

    /// The text of these code points.
    pub fn from_codes(alloc: Global, codes: &[u32]) -> Result<Text, Memory>
        requires { IsTrue (all_scalars codes.now) }
        ensures { IfOk result (λ made. made ≡ codes.now) }
    {
        Ok(Text {
            codes: Vec::from_slice(alloc, codes)?,
        })
    }

    /// Appends the character with this code.
    pub fn push(&mut self, code: u32) -> Result<(), Memory>
        requires { IsScalar code }
        ensures ok { OnOk result (self.new ≡ self.old ++ code ∷ []) }
        ensures err { OnErr result (self.new ≡ self.old) }
    {
        self.codes.push(code)?;
        Ok(())
    }

    /// The code points.
    pub fn codes(&self) -> &[u32]
        ensures value { result.now ≡ self.now }
        ensures scalars { IsTrue (all_scalars self.now) }
    {
        self.codes.as_slice()
    }

    /// The text in UTF-8.
    pub fn written(&self, alloc: Global) -> Result<String, Memory>
        ensures { IfOk result (λ string. string_bytes string ≡ encode_utf8_all self.now) }
    {
        Ok(utf8(alloc, self.codes.as_slice())?)
    }

    /// An equal text.
    pub fn copy(&self, alloc: Global) -> Result<Text, Memory>
        ensures { IfOk result (λ copy. copy ≡ self.now) }
    {
        Text::from_codes(alloc, self.codes())
    }
}

impl TryCopy for Text {
    fn try_copy(&self, alloc: Global) -> Result<Text, Memory> {
        self.copy(alloc)
    }
}

/// The code points of a `&str`, as a `Vec`.
fn code_points(alloc: Global, text: &str) -> Result<Vec<u32>, AllocError>
    ensures { IfOk result (λ codes. codes.items ≡ chars text.now) }
{
    text.chars()
        .map(|character| character as u32)
        .collect(alloc)
}

/// The UTF-8 of code points.
#[tactic(auto, using(crate::specs::Inner::ScalarLaws::written_steps))]
fn utf8(alloc: Global, codes: &[u32]) -> Result<String, AllocError>
    requires { IsTrue (all_scalars codes.now) }
    ensures { IfOk result (λ string. string_bytes string ≡ encode_utf8_all codes.now) }
{
    let mut string = String::new(alloc);
    for code in codes {
        string.push(char::from_u32(*code).unwrap())?;
    }
    Ok(string)
}
