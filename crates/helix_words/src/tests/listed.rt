//! Sets of words, listed from the least word on.

use crate::tests::build::set_of;
use crate::{Trail, Words};
use helix_base::{Memory, Quiet, Steps, Text};
use helix_values::{CellRef, Mark, Slot};
use std::alloc::Global;
use std::test::Fail;

/// Whether questions answer with these words, one after the other, and then with no more.
fn lists(alloc: Global, words: &Words, expected: &[&str]) -> Result<bool, Memory> {
    let mut slot = Slot::new();
    let mut steps = Steps::new(Quiet);
    let mut last = Text::of(alloc, "")?;
    let mut begun = false;
    for string in expected {
        let mark = mark_after(&last, begun);
        let found = words.at_or_after(mark, &mut slot, &mut steps);
        let text = Text::of(alloc, string)?;
        if !found || slot.view() != CellRef::Text(text.codes()) {
            return Ok(false);
        }
        last = text;
        begun = true;
    }
    Ok(!words.at_or_after(mark_after(&last, begun), &mut slot, &mut steps))
}

/// The mark above a word, or that of the start.
fn mark_after(word: &Text, begun: bool) -> Mark<'_> {
    if begun {
        Mark::After(CellRef::Text(word.codes()))
    } else {
        Mark::Start
    }
}

/// Whether a trail goes through these words, and then through no more.
fn goes_through(alloc: Global, words: &Words, expected: &[&str]) -> Result<bool, Memory> {
    let mut trail = Trail::open(alloc, words.longest_word())?;
    let mut steps = Steps::new(Quiet);
    let mut more = words.first(&mut trail, &mut steps);
    for string in expected {
        let text = Text::of(alloc, string)?;
        if !more || trail.word() != text.codes() {
            return Ok(false);
        }
        more = words.next(&mut trail, &mut steps);
    }
    Ok(!more)
}

/// Whether the words of a set are these, by questions and by a trail.
fn has_words(
    alloc: Global,
    set: (u32, u32, u32),
    refused: &[u32],
    expected: &[&str],
) -> Result<bool, Memory> {
    match set_of(alloc, set.0, set.1, set.2, refused)? {
        Some(words) => {
            Ok(lists(alloc, &words, expected)? && goes_through(alloc, &words, expected)?)
        }
        None => Ok(false),
    }
}

#[test]
fn words_are_listed_by_length(rt: HostRuntime) -> Result<(), Fail> {
    let cases: [((u32, u32, u32), &[u32], &[&str]); 3] = [
        ((0, 0, 2), &[], &["", "a", "b", "aa", "ab", "ba", "bb"]),
        ((0, 1, 2), &[1], &["aa", "ab", "ba", "bb"]),
        ((1, 0, 3), &[2], &["b", "aab", "abb", "bab", "bbb"]),
    ];
    for (set, refused, expected) in cases {
        assert!(rt; has_words(rt.alloc(), set, refused, expected)?, "{set:?}");
    }
    Ok(())
}

#[test]
fn words_have_characters_alone(rt: HostRuntime) -> Result<(), Fail> {
    let cases: [((u32, u32, u32), &[&str]); 2] = [
        (
            (2, 1, 2),
            &["~", "\u{a0}", "~~", "~\u{a0}", "\u{a0}~", "\u{a0}\u{a0}"],
        ),
        ((4, 0, 1000), &["", " c", "!c"]),
    ];
    for (set, expected) in cases {
        assert!(rt; has_words(rt.alloc(), set, &[], expected)?, "{set:?}");
    }
    Ok(())
}

#[test]
fn sets_may_be_empty(rt: HostRuntime) -> Result<(), Fail> {
    let cases = [((0, 2, 1), 9), ((0, 3, 3), 3), ((3, 0, 1000), 9)];
    for (set, refused) in cases {
        assert!(rt; has_words(rt.alloc(), set, &[refused], &[])?, "{set:?}");
    }
    Ok(())
}
