use crate::{Expr, Exprs, Ranges, Regex, contains_match, matches};
use helix_base::{Memory, Text};
use sqlite_items::Boxed;
use std::alloc::Global;
use std::test::Fail;

/// The characters from one to another.
fn range(alloc: Global, first: char, last: char) -> Result<Expr, Memory> {
    let mut ranges = Ranges::new(alloc);
    ranges.push((first as u32, last as u32))?;
    Ok(Expr::Chars(ranges))
}

fn both(alloc: Global, first: Expr, second: Expr) -> Result<Exprs, Memory> {
    let mut parts = Exprs::new(alloc);
    parts.push(first)?;
    parts.push(second)?;
    Ok(parts)
}

fn repeat(alloc: Global, part: Expr, least: u32, most: Option<u32>) -> Result<Expr, Memory> {
    Ok(Expr::Repeat(Boxed::new(alloc, part)?, least, most))
}

/// The expression of a pattern that the tests know.
fn expr_of(alloc: Global, pattern: &str) -> Result<Expr, Memory> {
    let a = range(alloc, 'a', 'a')?;
    let b = range(alloc, 'b', 'b')?;
    match pattern {
        "a|b{2}" => {
            let twice = repeat(alloc, b, 2, Some(2))?;
            Ok(Expr::Alt(both(alloc, a, twice)?))
        }
        "ab" => Ok(Expr::Seq(both(alloc, a, b)?)),
        "a{0}" => repeat(alloc, a, 0, Some(0)),
        "a{2,3}" => repeat(alloc, a, 2, Some(3)),
        "a*" => repeat(alloc, a, 0, None),
        "(a?){2,}" => {
            let optional = repeat(alloc, a, 0, Some(1))?;
            repeat(alloc, optional, 2, None)
        }
        "([a-c]*b)+" => {
            let letters = range(alloc, 'a', 'c')?;
            let letters = repeat(alloc, letters, 0, None)?;
            let piece = Expr::Seq(both(alloc, letters, b)?);
            repeat(alloc, piece, 1, None)
        }
        _ => Ok(Expr::Empty),
    }
}

#[test]
fn matches_as_textbooks_say(rt: HostRuntime) -> Result<(), Fail> {
    let cases = [
        ("", "", true),
        ("", "a", false),
        ("a|b{2}", "a", true),
        ("a|b{2}", "bb", true),
        ("a|b{2}", "", false),
        ("a|b{2}", "b", false),
        ("a|b{2}", "abb", false),
        ("ab", "ab", true),
        ("ab", "ba", false),
        ("a{0}", "", true),
        ("a{0}", "a", false),
        ("a{2,3}", "a", false),
        ("a{2,3}", "aa", true),
        ("a{2,3}", "aaa", true),
        ("a{2,3}", "aaaa", false),
        ("a*", "", true),
        ("a*", "aaaa", true),
        ("a*", "aaba", false),
        ("(a?){2,}", "", true),
        ("(a?){2,}", "aaa", true),
        ("([a-c]*b)+", "acbcb", true),
        ("([a-c]*b)+", "acbc", false),
    ];
    for (pattern, word, want) in cases {
        let expr = expr_of(rt.alloc(), pattern)?.copy(rt.alloc())?;
        let word_codes = Text::of(rt.alloc(), word)?;
        assert_eq!(rt;
            matches(&expr, word_codes.codes()),
            want,
            "{pattern} at {word}"
        );
    }
    Ok(())
}

#[test]
fn contains_as_anchors_say(rt: HostRuntime) -> Result<(), Fail> {
    let cases = [
        ("ab", true, false, "ab", true),
        ("ab", true, false, "abc", true),
        ("ab", true, false, "cab", false),
        ("ab", false, true, "cab", true),
        ("ab", false, true, "abc", false),
        ("ab", true, true, "ab", true),
        ("ab", true, true, "abab", false),
        ("ab", false, false, "cabc", true),
        ("ab", false, false, "acb", false),
        ("a{0}", true, true, "", true),
        ("a{0}", true, true, "b", false),
        ("a{0}", false, true, "b", true),
    ];
    for (pattern, at_start, at_end, word, want) in cases {
        let expr = expr_of(rt.alloc(), pattern)?;
        let regex = Regex {
            expr,
            at_start,
            at_end,
        };
        let copy = regex.copy(rt.alloc())?;
        let word_codes = Text::of(rt.alloc(), word)?;
        assert_eq!(rt;
            contains_match(&copy, word_codes.codes()),
            want,
            "{pattern} in {word}"
        );
    }
    Ok(())
}
