//! How many states the automata of patterns have.

use crate::patterns::{answer, regex_of};
use helix_base::Memory;
use helix_compile::dfa_of;
use helix_expr::{Expr, Exprs, Ranges, Regex};
use std::alloc::Global;
use std::test::Fail;

/// The number of states of the automaton of a pattern.
fn states(alloc: Global, pattern: &str, containing: bool) -> Result<u32, Memory> {
    match regex_of(alloc, pattern)? {
        Some(regex) => Ok(dfa_of(alloc, &regex, containing)?.states()),
        None => Ok(0),
    }
}

/// As many alternatives of one character, no two of them neighbours.
fn alternatives(alloc: Global, count: u16) -> Result<Regex, Memory> {
    let mut parts = Exprs::new(alloc);
    for i in 0..count {
        let code = 0x4E00 + 2 * u32::from(i);
        let mut ranges = Ranges::new(alloc);
        ranges.push((code, code))?;
        parts.push(Expr::Chars(ranges))?;
    }
    Ok(Regex {
        expr: Expr::Alt(parts),
        at_start: false,
        at_end: false,
    })
}

#[test]
fn automata_have_a_state_for_each_set_that_is_met(rt: HostRuntime) -> Result<(), Fail> {
    // One for each prefix that a match may have, and one for words that have none; where anything may follow a match,
    // one for all words that contain it.
    let cases = [
        (".{1000}", false, 1002),
        ("TR[0-9]{6}", false, 10),
        ("[A-Z]{2}[A-Z0-9]{9}[0-9]", false, 14),
        ("(a|b)*a(a|b){14}", false, 32_769),
        ("(.{0,1000}){5}", true, 1),
        ("^(.{0,1000}){5}", true, 1),
        (".{1000}", true, 1001),
        ("TR[0-9]{6}", true, 9),
        ("^ab", true, 4),
        ("ab$", true, 3),
    ];
    for (pattern, containing, want) in cases {
        assert_eq!(rt; states(rt.alloc(), pattern, containing)?, want, "{pattern}");
    }
    let many = dfa_of(rt.alloc(), &alternatives(rt.alloc(), 5000)?, false)?;
    assert_eq!(rt; (many.states(), many.range_ends()), (3, 10_001));
    assert_eq!(rt; answer(&many, &[0x4E00 + 9998]), Some(true));
    assert_eq!(rt; answer(&many, &[0x4E00 + 9999]), Some(false));
    Ok(())
}
