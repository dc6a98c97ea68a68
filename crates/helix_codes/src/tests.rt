use crate::code_dfa;
use helix_automata::Dfa;
use helix_base::{Alphabet, Memory, Text};
use helix_values::{Code, valid};
use std::alloc::Global;
use std::test::Fail;

/// Whether the automaton accepts a word, or `None` where the check rule answers otherwise.
fn answer(alloc: Global, dfa: &Dfa, code: Code, word: &str) -> Result<Option<bool>, Memory> {
    let word = Text::of(alloc, word)?;
    let codes = word.codes();
    if !codes.iter().all(|code| Alphabet::Unicode.has(*code)) {
        return Ok(None);
    }
    let accepted = dfa.accepts(codes);
    if valid(code, codes) == accepted {
        Ok(Some(accepted))
    } else {
        Ok(None)
    }
}

#[test]
fn isins_are_accepted(rt: HostRuntime) -> Result<(), Fail> {
    let cases = [
        ("US0378331005", true),
        ("US0378331006", false),
        ("AU0000XVGZA3", true),
        ("GB0002634946", true),
        ("AA0000000006", true),
        ("AA0000000014", true),
        ("AA0000000022", true),
        ("us0378331005", false),
        ("U50378331005", false),
        ("US037833100", false),
        ("US037833100A", false),
        ("US03783310050", false),
        ("", false),
    ];
    let dfa = code_dfa(rt.alloc(), Code::Isin)?;
    for (word, want) in cases {
        assert_eq!(rt;
            answer(rt.alloc(), &dfa, Code::Isin, word)?,
            Some(want),
            "{word}"
        );
    }
    Ok(())
}

#[test]
fn sedols_are_accepted(rt: HostRuntime) -> Result<(), Fail> {
    let cases = [
        ("0263494", true),
        ("0263495", false),
        ("7108899", true),
        ("B0YBKJ7", true),
        ("0000000", true),
        ("0000011", true),
        ("0000022", true),
        ("A000000", false),
        ("b0YBKJ7", false),
        ("000000", false),
        ("00000000", false),
    ];
    let dfa = code_dfa(rt.alloc(), Code::Sedol)?;
    for (word, want) in cases {
        assert_eq!(rt;
            answer(rt.alloc(), &dfa, Code::Sedol, word)?,
            Some(want),
            "{word}"
        );
    }
    Ok(())
}

#[test]
fn cusips_are_accepted(rt: HostRuntime) -> Result<(), Fail> {
    let cases = [
        ("037833100", true),
        ("68389X105", true),
        ("68389X106", false),
        ("########4", true),
        ("#######*8", true),
        ("#######07", true),
        ("03783310#", false),
        ("17275r102", false),
        ("03783310", false),
        ("0378331000", false),
    ];
    let dfa = code_dfa(rt.alloc(), Code::Cusip)?;
    for (word, want) in cases {
        assert_eq!(rt;
            answer(rt.alloc(), &dfa, Code::Cusip, word)?,
            Some(want),
            "{word}"
        );
    }
    Ok(())
}

/// Whether a word is one of characters, and accepted.
fn is_accepted(dfa: &Dfa, word: &Text) -> bool {
    word.codes().iter().all(|code| Alphabet::Unicode.has(*code)) && dfa.accepts(word.codes())
}

/// The check digits with which a word is accepted after these characters, one after the other.
fn check_digits(alloc: Global, code: Code, stem: &str) -> Result<Text, Memory> {
    let dfa = code_dfa(alloc, code)?;
    let mut found = Text::of(alloc, "")?;
    for digit in 0..10 {
        let mut word = Text::of(alloc, stem)?;
        word.push('0' as u32 + digit)?;
        if is_accepted(&dfa, &word) {
            found.push('0' as u32 + digit)?;
        }
    }
    Ok(found)
}

#[test]
fn one_check_digit_is_right(rt: HostRuntime) -> Result<(), Fail> {
    let cases = [
        (Code::Isin, "US037833100", "5"),
        (Code::Isin, "AA000000000", "6"),
        (Code::Sedol, "026349", "4"),
        (Code::Sedol, "000000", "0"),
        (Code::Cusip, "03783310", "0"),
        (Code::Cusip, "########", "4"),
    ];
    for (code, stem, want) in cases {
        let found = check_digits(rt.alloc(), code, stem)?;
        let want = Text::of(rt.alloc(), want)?;
        assert!(rt; found.codes() == want.codes(), "{stem}");
    }
    Ok(())
}

#[test]
fn states_and_arcs_are_few(rt: HostRuntime) -> Result<(), Fail> {
    // One state for the words that no code begins with, one for the empty word, and the sums after each character.
    let cases = [
        (Code::Isin, 2 + 26 + 89 + 10 * 100, 39),
        (Code::Sedol, 2 + 7 * 10, 38),
        (Code::Cusip, 2 + 9 * 10, 44),
    ];
    for (code, states, arcs) in cases {
        let dfa = code_dfa(rt.alloc(), code)?;
        assert_eq!(rt; dfa.states(), states);
        assert_eq!(rt; dfa.range_ends(), arcs);
    }
    Ok(())
}
