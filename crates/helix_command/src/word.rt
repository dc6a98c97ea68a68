//! A word of the command line: its name, and its value after an `=`.

ghost use Rattle.std.specs.Prelude.{◌≡◌, ◌<◌, IfSome, IsTrue, bytes_eq, length, option_copied};
ghost use Rattle.std.specs.List.{position};
ghost use Rattle.std.specs.Str.{all_scalars};
ghost use Rattle.helix_command.specs.Groups.{is_equals, name_in, value_in};

/// Whether a text is a word of ASCII characters.
#[tactic(auto, using(crate::proofs::Texts::eq_step, crate::proofs::Texts::other_lengths))]
pub fn is_word(text: &[u32], word: &str) -> bool
    ensures { result ≡ bytes_eq text.now word.now }
{
    let bytes = word.as_bytes();
    if text.len() != bytes.len() {
        return false;
    }
    for (i, code) in text.iter().enumerate() {
        if *code != u32::from(bytes[i]) {
            return false;
        }
    }
    true
}

/// The part of a word before its first `=`, or all of it where there is none.
#[tactic(auto, unfolding(crate::specs::Groups::name_in))]
pub fn name_in(word: &[u32]) -> &[u32]
    ensures { result.now ≡ name_in word.now }
{
    match equals_in(word) {
        Some(at) => &word[..at],
        None => word,
    }
}

/// The part of a word after its first `=`.
#[tactic(auto, unfolding(crate::specs::Groups::value_in))]
pub fn value_in(word: &[u32]) -> Option<&[u32]>
    ensures value { option_copied result ≡ value_in word.now }
    ensures scalars { IsTrue (all_scalars word.now) → IfSome result (λ own. IsTrue (all_scalars own.now)) }
{
    match equals_in(word) {
        Some(at) => Some(&word[at + 1..]),
        None => None,
    }
}

/// The index of the first `=`.
fn equals_in(word: &[u32]) -> Option<usize>
    ensures value { result ≡ position is_equals word.now }
    ensures within { IfSome result (λ at. at < length word.now) }
{
    word.iter().position(|code| *code == '=' as u32)
}
