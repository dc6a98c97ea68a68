use crate::{RegexError, RegexFault, RegexRule, parse};
use helix_base::{Memory, Text};
use std::alloc::Global;
use std::test::Fail;

/// `count` groups around an `a`, or only their beginnings.
fn nested(alloc: Global, count: u32, closed: bool) -> Result<Text, Memory> {
    let mut text = Text::new(alloc);
    for _ in 0..count {
        text.push('(' as u32)?;
    }
    if closed {
        text.push('a' as u32)?;
        for _ in 0..count {
            text.push(')' as u32)?;
        }
    }
    Ok(text)
}

#[test]
fn reads_groups_of_any_depth(rt: HostRuntime) -> Result<(), Fail> {
    let deepest = nested(rt.alloc(), 64, true)?;
    assert!(rt; parse(rt.alloc(), &deepest).is_ok());
    let cases = [
        (65, true, RegexRule::TooLarge, 0),
        (100_000, true, RegexRule::TooLarge, 0),
        (1_000_000, false, RegexRule::Syntax, 1_000_000),
    ];
    for (count, closed, rule, at) in cases {
        let text = nested(rt.alloc(), count, closed)?;
        let want = RegexError::Fault(RegexFault { rule, at });
        assert_eq!(rt; parse(rt.alloc(), &text).err(), Some(want), "{count}");
    }
    Ok(())
}
