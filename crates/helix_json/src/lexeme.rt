//! One string, number or word of a text, from its offset on.

ghost use Rattle.std.specs.Prelude.{◌≡◌, ◌≤◌, ◌<◌, length, IfOk, IsTrue};
ghost use Rattle.std.specs.Str.{all_scalars};
ghost use Rattle.helix_json.specs.Inner.Lexer.{word_rest};
ghost use Rattle.helix_json.specs.Inner.Lexeme.{ReadsString, ReadsNumber, ReadsLetters};

use crate::class::Word;
use crate::digits::{NumberState, kind_of_code, next_number_state};
use crate::string::{StringMove, StringState, string_move};
use helix_base::{Memory, Text};
use std::alloc::Global;

/// A string and the offset after it, or the length of the longest viable prefix.
#[derive(Debug, Drop)]
pub enum StringRead {
    Closes(Text, usize),
    Stops(usize),
}

/// Reads the string whose characters begin at that offset, after its opening quote.
pub fn read_string(alloc: Global, codes: &[u32], from: usize) -> Result<StringRead, Memory>
    requires scalars { IsTrue (all_scalars codes.now) }
    requires within { from ≤ length codes.now }
    ensures { IfOk result (ReadsString codes.now from) }
{
    let mut text = Text::new(alloc);
    let mut state = StringState::Plain;
    for i in from..codes.len() {
        match string_move(state, codes[i]) {
            StringMove::Refuse => return Ok(StringRead::Stops(i)),
            StringMove::Go(next) => state = next,
            StringMove::Give(code) => {
                text.push(code)?;
                state = StringState::Plain;
            }
            StringMove::Close => return Ok(StringRead::Closes(text, i + 1)),
        }
    }
    Ok(StringRead::Stops(codes.len()))
}

/// What has been read of a number from that offset on, and the offset after it.
pub fn read_number(codes: &[u32], from: usize, first: NumberState) -> (NumberState, usize)
    requires { from ≤ length codes.now }
    ensures { ReadsNumber codes.now from first result.0 result.1 }
{
    let mut state = first;
    for i in from..codes.len() {
        let Some(next) = next_number_state(state, kind_of_code(codes[i])) else {
            return (state, i);
        };
        state = next;
    }
    (state, codes.len())
}

/// How many of the letters are at that offset, one after the other.
pub fn read_letters(codes: &[u32], from: usize, letters: &[u32]) -> usize
    requires { from ≤ length codes.now }
    ensures { ReadsLetters codes.now from letters.now result }
{
    for (i, letter) in letters.iter().enumerate() {
        if from + i >= codes.len() || codes[from + i] != *letter {
            return i;
        }
    }
    letters.len()
}

/// The letters of a word after its first.
pub fn letters_of(word: Word) -> &'static [u32]
    ensures { result.now ≡ word_rest word }
{
    match word {
        Word::Null => &[117, 108, 108],
        Word::True => &[114, 117, 101],
        Word::False => &[97, 108, 115, 101],
    }
}

/// Characters as a text.
pub fn text_of(alloc: Global, codes: &[u32]) -> Result<Text, Memory>
    requires { IsTrue (all_scalars codes.now) }
    ensures { IfOk result (λ text. text ≡ codes.now) }
{
    let mut text = Text::new(alloc);
    for code in codes {
        text.push(*code)?;
    }
    Ok(text)
}
