use crate::{Arc, Arcs, Dfa, DfaFault, Flags, Moves};
use helix_base::{Alphabet, Memory, Text};
use std::alloc::Global;
use std::test::Fail;

const LAST: u32 = 0x10_FFFF;

/// Arcs of one state: each as its first and its last code and where it leads, one number after the other.
fn arcs_of(alloc: Global, numbers: &[u32]) -> Result<Arcs, Memory> {
    let mut arcs = Arcs::new(alloc);
    for three in numbers.chunks(3) {
        if let [first, last, to] = three {
            arcs.push(Arc {
                first: *first,
                last: *last,
                to: *to,
            })?;
        }
    }
    Ok(arcs)
}

/// Moves of states with the same arcs, and of a last one that leads to itself alone.
fn moves_of(alloc: Global, states: u32, numbers: &[u32]) -> Result<Moves, Memory> {
    let mut moves = Moves::new(alloc);
    for _ in 1..states {
        moves.push(arcs_of(alloc, numbers)?)?;
    }
    let last = [0x20, LAST, states.saturating_sub(1)];
    moves.push(arcs_of(alloc, &last)?)?;
    Ok(moves)
}

fn flags_of(alloc: Global, flags: &[bool]) -> Result<Flags, Memory> {
    let mut all = Flags::new(alloc);
    for flag in flags {
        all.push(*flag)?;
    }
    Ok(all)
}

/// Whether one accepting state with these arcs makes an automaton.
fn is_built(alloc: Global, numbers: &[u32]) -> Result<bool, Memory> {
    let mut moves = Moves::new(alloc);
    moves.push(arcs_of(alloc, numbers)?)?;
    match Dfa::build(moves, flags_of(alloc, &[true])?) {
        Ok(_) => Ok(true),
        Err(DfaFault::Shape) => Ok(false),
        Err(DfaFault::Memory) => Err(Memory),
    }
}

#[test]
fn only_what_has_the_shape_is_built(rt: HostRuntime) -> Result<(), Fail> {
    let cases: [(&[u32], bool); 12] = [
        (&[0x20, LAST, 0], true),
        (&[0, u32::MAX, 0], true),
        (&[], false),
        (&[0x21, LAST, 0], false),
        (&[0x20, LAST - 1, 0], false),
        (&[0x20, 0x7E, 0, 0xA0, 0xD7FF, 0, 0xE000, LAST, 0], true),
        (&[0x20, 0x7E, 0, 0xA1, LAST, 0], false),
        (&[0x20, 0x61, 0, 0x61, LAST, 0], false),
        (&[0x20, 0x60, 0, 0x61, LAST, 0], true),
        (&[0x61, LAST, 0, 0x20, 0x60, 0], false),
        (&[0x20, 0x7E, 0, 0x7F, 0x9F, 0, 0xA0, LAST, 0], false),
        (&[0x20, LAST, 1], false),
    ];
    for (numbers, want) in cases {
        assert_eq!(rt; is_built(rt.alloc(), numbers)?, want, "{numbers:?}");
    }
    Ok(())
}

/// The words of a and b, those that end in b where `ends` says so.
fn letters(alloc: Global, ends: bool) -> Result<Option<Dfa>, Memory> {
    let moves = if ends {
        moves_of(
            alloc,
            3,
            &[0, 0x60, 2, 0x61, 0x61, 0, 0x62, 0x62, 1, 0x63, LAST, 2],
        )?
    } else {
        moves_of(alloc, 2, &[0x20, 0x60, 1, 0x61, 0x62, 0, 0x63, u32::MAX, 1])?
    };
    let flags = if ends {
        flags_of(alloc, &[false, true, false])?
    } else {
        flags_of(alloc, &[true, false])?
    };
    Ok(Dfa::build(moves, flags).ok())
}

/// The two automata, the one that accepts what only the second does, and what that leaves out.
fn four(alloc: Global) -> Result<Option<[Dfa; 4]>, Memory> {
    let (Some(ends), Some(words)) = (letters(alloc, true)?, letters(alloc, false)?) else {
        return Ok(None);
    };
    let only_second = ends.complement(alloc)?.product(alloc, &words)?;
    let others = only_second.complement(alloc)?;
    Ok(Some([ends, words, only_second, others]))
}

/// Whether the automaton accepts a word, or `None` where that has a character outside the alphabet.
fn answer(dfa: &Dfa, word: &Text) -> Option<bool> {
    if word.codes().iter().all(|code| Alphabet::Unicode.has(*code)) {
        Some(dfa.accepts(word.codes()))
    } else {
        None
    }
}

#[test]
fn products_and_complements_accept(rt: HostRuntime) -> Result<(), Fail> {
    let cases = [
        ("", false, true),
        ("b", true, true),
        ("a", false, true),
        ("ab", true, true),
        ("ba", false, true),
        ("bb", true, true),
        ("xb", false, false),
        ("\u{a0}", false, false),
        ("a\u{10ffff}", false, false),
        ("ab~", false, false),
    ];
    let all = four(rt.alloc())?;
    assert!(rt; all.is_some());
    if let Some([ends, words, only_second, others]) = &all {
        for (string, in_ends, in_words) in cases {
            let word = Text::of(rt.alloc(), string)?;
            assert_eq!(rt; answer(ends, &word), Some(in_ends), "{string}");
            assert_eq!(rt; answer(words, &word), Some(in_words), "{string}");
            let only = !in_ends && in_words;
            assert_eq!(rt; answer(only_second, &word), Some(only), "{string}");
            assert_eq!(rt; answer(others, &word), Some(!only), "{string}");
        }
        // Only the pairs that can be reached are made, and neighbours that lead to one state are joined.
        assert_eq!(rt; only_second.states(), 3);
        assert_eq!(rt; ends.range_ends(), 4);
        assert_eq!(rt; only_second.range_ends(), 4);
        assert_eq!(rt; words.product(rt.alloc(), words)?.range_ends(), 3);
    }
    Ok(())
}
