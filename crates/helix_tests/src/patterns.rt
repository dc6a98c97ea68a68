//! The automata of patterns accept what the plain matcher says.

use helix_automata::Dfa;
use helix_base::{Alphabet, Memory, Text};
use helix_compile::dfa_of;
use helix_expr::{Regex, contains_match, matches};
use helix_regex::{RegexError, parse};
use std::alloc::Global;
use std::test::Fail;

/// What a pattern spells, or `None` where it is refused.
pub fn regex_of(alloc: Global, pattern: &str) -> Result<Option<Regex>, Memory> {
    match parse(alloc, &Text::of(alloc, pattern)?) {
        Ok(regex) => Ok(Some(regex)),
        Err(RegexError::Fault(_)) => Ok(None),
        Err(RegexError::Memory) => Err(Memory),
    }
}

/// Whether the automaton accepts a word, or `None` where that has a character outside the alphabet.
pub fn answer(dfa: &Dfa, word: &[u32]) -> Option<bool> {
    if word.iter().all(|code| Alphabet::Unicode.has(*code)) {
        Some(dfa.accepts(word))
    } else {
        None
    }
}

/// Whether the automaton of a pattern accepts a word.
fn accepts(
    alloc: Global,
    pattern: &str,
    containing: bool,
    word: &str,
) -> Result<Option<bool>, Memory> {
    let word = Text::of(alloc, word)?;
    match regex_of(alloc, pattern)? {
        Some(regex) => Ok(answer(&dfa_of(alloc, &regex, containing)?, word.codes())),
        None => Ok(None),
    }
}

#[test]
fn whole_words_match(rt: HostRuntime) -> Result<(), Fail> {
    let cases = [
        ("a|b{2}", "a", true),
        ("a|b{2}", "bb", true),
        ("a|b{2}", "", false),
        ("a|b{2}", "b", false),
        ("a|b{2}", "abb", false),
        ("a{0}", "", true),
        ("a{0}", "a", false),
        ("", "", true),
        ("", "a", false),
        ("a||b", "", true),
        ("(|a)b", "ab", true),
        ("(a{2}){3}", "aaaaaa", true),
        ("(a{2}){3}", "aaaaa", false),
        ("(a{0,1}){2}", "aa", true),
        ("(a{0,1}){2}", "aaa", false),
        ("(a{0}){5}", "", true),
        ("((a{0}){1000}){1000}", "", true),
        ("((a{0})*){1000}b", "b", true),
        ("a{2,}", "a", false),
        ("a{2,}", "aaaaa", true),
        ("a{2,3}", "aaaa", false),
        ("(a*)*", "aaa", true),
        ("(a*)*", "ab", false),
        ("(a|ab)(c|bcd)", "abcd", true),
        ("(a|ab)(c|bcd)", "abbcd", true),
        ("(a|ab)(c|bcd)", "ab", false),
        (".", "\u{10ffff}", true),
        (".", "", false),
        ("[^a]", "~", true),
        ("[^~]", "\u{a0}", true),
        ("[^\u{d7ff}]", "\u{e000}", true),
        ("[^\u{d7ff}]", "\u{d7ff}", false),
        ("\\D\\d", "\u{a0}7", true),
        ("\\w+", "a_Z9", true),
        ("\\w+", "a-Z", false),
        ("^ab$", "ab", true),
        ("^ab$", "xab", false),
    ];
    for (pattern, word, want) in cases {
        assert_eq!(rt;
            accepts(rt.alloc(), pattern, false, word)?,
            Some(want),
            "{pattern} {word}"
        );
    }
    Ok(())
}

#[test]
fn contained_words_match(rt: HostRuntime) -> Result<(), Fail> {
    let cases = [
        ("^ab", "ab", true),
        ("^ab", "abc", true),
        ("^ab", "cab", false),
        ("ab$", "cab", true),
        ("ab$", "abc", false),
        ("^ab$", "ab", true),
        ("^ab$", "cab", false),
        ("^ab$", "abc", false),
        ("ab", "xxabxx", true),
        ("ab", "axb", false),
        ("", "", true),
        ("", "x", true),
        ("^", "x", true),
        ("$", "x", true),
        ("^$", "", true),
        ("^$", "x", false),
        ("[^a-b]", "abab", false),
        ("[^a-b]", "ab\u{a0}", true),
    ];
    for (pattern, word, want) in cases {
        assert_eq!(rt;
            accepts(rt.alloc(), pattern, true, word)?,
            Some(want),
            "{pattern} {word}"
        );
    }
    Ok(())
}

/// Appends n letters a and b, those of a number in base two.
fn push_letters(word: &mut Text, number: u32, length: u32) -> Result<(), Memory> {
    let mut rest = number;
    for _ in 0..length {
        if rest % 2 == 0 {
            word.push(97)?;
        } else {
            word.push(98)?;
        }
        rest /= 2;
    }
    Ok(())
}

/// Whether the automata of a pattern answer for a word as the plain matcher does.
fn agree(regex: &Regex, whole: &Dfa, contained: &Dfa, word: &[u32]) -> bool {
    answer(whole, word) == Some(matches(&regex.expr, word))
        && answer(contained, word) == Some(contains_match(regex, word))
}

/// The number of words of a and b, up to six letters, that the automata and the plain matcher answer alike.
fn agreeing(alloc: Global, pattern: &str) -> Result<u32, Memory> {
    let mut count: u32 = 0;
    if let Some(regex) = regex_of(alloc, pattern)? {
        let whole = dfa_of(alloc, &regex, false)?;
        let contained = dfa_of(alloc, &regex, true)?;
        for length in 0..7 {
            for number in 0..1u32 << length {
                let mut word = Text::new(alloc);
                push_letters(&mut word, number, length)?;
                if agree(&regex, &whole, &contained, word.codes()) {
                    count = count.saturating_add(1);
                }
            }
        }
    }
    Ok(count)
}

#[test]
fn automata_and_the_plain_matcher_agree(rt: HostRuntime) -> Result<(), Fail> {
    let patterns = [
        "",
        "a",
        "a|b{2}",
        "(a|ab)(b|bab)",
        "(a*)*b",
        "(a|b)*a(a|b)",
        "(a?){3}",
        "a{1,2}b{0,2}a",
        "^a",
        "b$",
        "^(ab)*$",
        "[^a]+",
        "(|a)(|b)",
    ];
    for pattern in patterns {
        assert_eq!(rt; agreeing(rt.alloc(), pattern)?, 127, "{pattern}");
    }
    Ok(())
}

/// The automaton of the words that the first pattern matches and the second doesn't.
fn without(alloc: Global, pattern: &str, other: &str) -> Result<Option<Dfa>, Memory> {
    let (Some(kept), Some(left_out)) = (regex_of(alloc, pattern)?, regex_of(alloc, other)?) else {
        return Ok(None);
    };
    let kept = dfa_of(alloc, &kept, false)?;
    let left_out = dfa_of(alloc, &left_out, false)?;
    Ok(Some(kept.product(alloc, &left_out.complement(alloc)?)?))
}

#[test]
fn products_and_complements_of_patterns_accept(rt: HostRuntime) -> Result<(), Fail> {
    let dfa = without(rt.alloc(), "[a-c]*", ".{2}|(ab)*|[^a]*")?;
    assert!(rt; dfa.is_some());
    if let Some(dfa) = dfa {
        let cases = [
            ("", false),
            ("a", true),
            ("b", false),
            ("ab", false),
            ("ba", false),
            ("aba", true),
            ("abab", false),
            ("bcb", false),
            ("bca", true),
            ("bad", false),
            ("a\u{a0}a", false),
        ];
        for (string, want) in cases {
            let word = Text::of(rt.alloc(), string)?;
            assert_eq!(rt; answer(&dfa, word.codes()), Some(want), "{string}");
        }
    }
    Ok(())
}
