//! What tests build their sets of words from: small automata, as a table can name them.

use crate::Words;
use helix_automata::{Arc, Arcs, Dfa, Flags, Moves};
use helix_base::Memory;
use std::alloc::Global;

const LAST: u32 = 0x10_FFFF;

/// Arcs of one state: each as its first and its last code and where it leads, one number after the other.
fn arcs_of(alloc: Global, numbers: &[u32]) -> Result<Arcs, Memory> {
    let mut arcs = Arcs::new(alloc);
    for three in numbers.chunks(3) {
        if let [first, last, to] = three {
            arcs.push(Arc {
                first: *first,
                last: *last,
                to: *to,
            })?;
        }
    }
    Ok(arcs)
}

/// The automaton of these arcs and accepting states.
fn dfa_of(alloc: Global, rows: &[&[u32]], flags: &[bool]) -> Result<Option<Dfa>, Memory> {
    let mut moves = Moves::new(alloc);
    for numbers in rows {
        moves.push(arcs_of(alloc, numbers)?)?;
    }
    let mut accepting = Flags::new(alloc);
    for flag in flags {
        accepting.push(*flag)?;
    }
    Ok(Dfa::build(moves, accepting).ok())
}

/// Small automata by number: the words of a and b, those of them that end in b, the words of `~` and U+00A0, whose arcs
/// hold codes that are no characters, no word, and three words that end.
fn automaton(alloc: Global, number: u32) -> Result<Option<Dfa>, Memory> {
    match number {
        0 => dfa_of(
            alloc,
            &[
                &[0x20, 0x60, 1, 0x61, 0x62, 0, 0x63, LAST, 1],
                &[0x20, LAST, 1],
            ],
            &[true, false],
        ),
        1 => dfa_of(
            alloc,
            &[
                &[0x20, 0x60, 2, 0x61, 0x61, 0, 0x62, 0x62, 1, 0x63, LAST, 2],
                &[0x20, 0x60, 2, 0x61, 0x61, 0, 0x62, 0x62, 1, 0x63, LAST, 2],
                &[0x20, LAST, 2],
            ],
            &[false, true, false],
        ),
        2 => dfa_of(
            alloc,
            &[
                &[0, 0x7D, 1, 0x7E, 0xA0, 0, 0xA1, u32::MAX, 1],
                &[0, u32::MAX, 1],
            ],
            &[true, false],
        ),
        3 => dfa_of(alloc, &[&[0x20, LAST, 0]], &[false]),
        _ => dfa_of(
            alloc,
            &[
                &[0x20, 0x21, 1, 0x22, LAST, 3],
                &[0x20, 0x62, 3, 0x63, 0x63, 2, 0x64, LAST, 3],
                &[0x20, LAST, 3],
                &[0x20, LAST, 3],
            ],
            &[true, false, true, false],
        ),
    }
}

/// The set of words of an automaton, or `None` where there is no such automaton.
pub fn set_of(
    alloc: Global,
    number: u32,
    shortest: u32,
    longest: u32,
    refused: &[u32],
) -> Result<Option<Words>, Memory> {
    match automaton(alloc, number)? {
        Some(dfa) if longest <= 1000 => {
            Ok(Some(Words::refusing(alloc, dfa, shortest, longest, refused)?))
        }
        _ => Ok(None),
    }
}
