use crate::determinize::determinize;
use crate::nfa::{Nfa, State};
use helix_automata::Dfa;
use helix_base::{Alphabet, Memory, Text};
use helix_expr::Ranges;
use std::alloc::Global;
use std::test::Fail;

/// A state in a table: `e` accepts the empty word, `a` every word, `s` none, `r` reads a character from the first to
/// the last of two codes and then is the state with this number, and `f` is a split.
type Row = (char, u32, u32, u32);

fn state_of(alloc: Global, row: Row) -> Result<State, Memory> {
    match row {
        ('e', _, _, _) => Ok(State::Accept),
        ('a', _, _, _) => Ok(State::AcceptAll),
        ('r', first, last, next) => {
            let mut ranges = Ranges::new(alloc);
            ranges.push((first, last))?;
            Ok(State::Read(ranges, next))
        }
        ('f', one, other, _) => Ok(State::Split(one, other)),
        _ => Ok(State::Fail),
    }
}

fn automaton(alloc: Global, rows: &[Row], start: u32) -> Result<Dfa, Memory> {
    let mut nfa = Nfa::new(alloc);
    for row in rows {
        nfa.add(state_of(alloc, *row)?)?;
    }
    determinize(alloc, nfa.as_slice(), start)
}

const A: u32 = 97;

const B: u32 = 98;

#[test]
fn what_is_read_is_accepted(rt: HostRuntime) -> Result<(), Fail> {
    let cases: [(&[Row], u32, &[&str], &[&str]); 10] = [
        // The end alone, no word, and a state that isn't there.
        (&[('e', 0, 0, 0)], 0, &[""], &["a"]),
        (&[('s', 0, 0, 0)], 0, &[], &["", "a"]),
        (&[('r', A, A, 7)], 0, &[], &["", "a"]),
        (&[], 3, &[], &["", "a"]),
        // Every word, and every word after an a, beside b.
        (
            &[
                ('a', 0, 0, 0),
                ('e', 0, 0, 0),
                ('r', A, A, 0),
                ('r', B, B, 1),
                ('f', 2, 3, 0),
            ],
            4,
            &["a", "ab", "a\u{10ffff} ", "b"],
            &["", "ba", "c"],
        ),
        // One character of a range, with its ends and their neighbours.
        (
            &[('e', 0, 0, 0), ('r', A, 122, 0)],
            1,
            &["a", "m", "z"],
            &["", "`", "{", "aa"],
        ),
        // All codes, those outside of the alphabet too.
        (
            &[('e', 0, 0, 0), ('r', 0, u32::MAX, 0)],
            1,
            &[" ", "\u{a0}", "\u{10ffff}"],
            &["", "ab"],
        ),
        // A range that is reversed.
        (&[('e', 0, 0, 0), ('r', B, A, 0)], 1, &[], &["", "a", "b"]),
        // Splits in a circle that reads a and b as often as it will.
        (
            &[
                ('f', 1, 2, 0),
                ('f', 0, 3, 0),
                ('r', A, A, 0),
                ('f', 4, 5, 0),
                ('r', B, B, 1),
                ('e', 0, 0, 0),
            ],
            0,
            &["", "a", "b", "abba", "bab"],
            &["c", "ac", "ca"],
        ),
        // a or b, then a, or a alone: two ways that share their first character.
        (
            &[
                ('e', 0, 0, 0),
                ('r', A, A, 0),
                ('r', A, B, 1),
                ('f', 2, 1, 0),
            ],
            3,
            &["a", "aa", "ba"],
            &["", "b", "ab", "aaa"],
        ),
    ];
    for (rows, start, yes, no) in cases {
        let dfa = automaton(rt.alloc(), rows, start)?;
        for string in yes {
            let word = Text::of(rt.alloc(), string)?;
            assert!(rt; answer(&dfa, &word), "{rows:?} {string}");
        }
        for string in no {
            let word = Text::of(rt.alloc(), string)?;
            assert!(rt; !answer(&dfa, &word), "{rows:?} {string}");
        }
    }
    Ok(())
}

/// Whether the automaton accepts a word over its alphabet.
fn answer(dfa: &Dfa, word: &Text) -> bool {
    word.codes().iter().all(|code| Alphabet::Unicode.has(*code)) && dfa.accepts(word.codes())
}

/// The automaton of a word of a and b whose character n before the last one is an a.
fn a_before(alloc: Global, count: u8) -> Result<Dfa, Memory> {
    let count = u32::from(count);
    let mut nfa = Nfa::new(alloc);
    nfa.add(State::Accept)?;
    for next in 0..count {
        nfa.add(state_of(alloc, ('r', A, B, next))?)?;
    }
    let (chosen, any, split) = (count + 1, count + 2, count + 3);
    nfa.add(state_of(alloc, ('r', A, A, count))?)?;
    nfa.add(state_of(alloc, ('r', A, B, split))?)?;
    nfa.add(State::Split(any, chosen))?;
    determinize(alloc, nfa.as_slice(), split)
}

#[test]
fn states_are_the_sets_that_can_be_reached(rt: HostRuntime) -> Result<(), Fail> {
    // One set for each choice of a and b among the last characters, and the empty one.
    for (count, states) in [(0, 3), (1, 5), (3, 17), (14, 32_769)] {
        assert_eq!(rt; a_before(rt.alloc(), count)?.states(), states, "{count}");
    }
    // a and b are one class, and so is what is on each side of them.
    let dfa = automaton(rt.alloc(), &[('e', 0, 0, 0), ('r', A, B, 0)], 1)?;
    assert_eq!(rt; (dfa.states(), dfa.range_ends()), (3, 3));
    Ok(())
}
