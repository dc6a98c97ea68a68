//! Questions from a mark on.

use crate::Words;
use crate::tests::build::set_of;
use helix_base::{Memory, Quiet, Steps, Text};
use helix_values::{CellRef, Mark, Slot};
use std::alloc::Global;
use std::test::Fail;

/// What a question from a text on answers, where it leaves a number in the slot if there is no word.
fn answers(
    alloc: Global,
    words: &Words,
    string: &str,
    strict: bool,
    expected: Option<&str>,
) -> Result<bool, Memory> {
    let text = Text::of(alloc, string)?;
    let bound = CellRef::Text(text.codes());
    let mark = if strict {
        Mark::After(bound)
    } else {
        Mark::At(bound)
    };
    let mut slot = Slot::new();
    slot.set(CellRef::Number(7));
    let mut steps = Steps::new(Quiet);
    let found = words.at_or_after(mark, &mut slot, &mut steps);
    match expected {
        Some(string) => {
            let word = Text::of(alloc, string)?;
            Ok(found && slot.view() == CellRef::Text(word.codes()))
        }
        None => Ok(!found && slot.view() == CellRef::Number(7)),
    }
}

#[test]
fn marks_are_between_words(rt: HostRuntime) -> Result<(), Fail> {
    let cases = [
        ("", false, Some("b")),
        ("b", false, Some("b")),
        ("b", true, Some("aab")),
        ("zz", false, Some("aab")),
        ("aac", false, Some("abb")),
        ("bbb", true, None),
    ];
    if let Some(words) = set_of(rt.alloc(), 1, 0, 3, &[2])? {
        for (string, strict, expected) in cases {
            assert!(rt;
                answers(rt.alloc(), &words, string, strict, expected)?,
                "{string}"
            );
        }
    }
    Ok(())
}

#[test]
fn marks_need_not_be_words(rt: HostRuntime) -> Result<(), Fail> {
    let cases = [
        ("a\u{1}b", Some("aab")),
        ("a\u{7f}b", Some("bab")),
        ("\u{10ffff}", Some("aab")),
        ("bbbb", None),
    ];
    if let Some(words) = set_of(rt.alloc(), 1, 0, 3, &[2])? {
        for (string, expected) in cases {
            assert!(rt;
                answers(rt.alloc(), &words, string, false, expected)?,
                "{string}"
            );
        }
    }
    Ok(())
}
