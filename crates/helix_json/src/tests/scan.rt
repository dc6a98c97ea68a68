use crate::scan::scan;
use crate::scanned::Scan;
use helix_base::{Memory, Text};
use std::alloc::Global;
use std::test::Fail;

/// How many tokens a text has, and the offset of its syntax error.
fn counted(alloc: Global, text: &Text) -> Result<(usize, usize), Memory> {
    match scan(alloc, text.codes())? {
        Scan::SyntaxError(count) => Ok((0, count)),
        Scan::Tokens(scanned) => Ok((scanned.tokens.len(), 0)),
    }
}

/// The same character `count` times.
fn repeated(alloc: Global, character: char, count: u32) -> Result<Text, Memory> {
    let mut text = Text::new(alloc);
    for _ in 0..count {
        text.push(character as u32)?;
    }
    Ok(text)
}

#[test]
fn each_prefix_of_an_object_needs_more(rt: HostRuntime) -> Result<(), Fail> {
    let rich =
        " {\n\"k\u{e9}\\u00e9\\ud83d\\ude00\\n\":[1, -2.5e+3,0 ,true,false,null,\"\",{}],\"b\":{\"c\":[]}}";
    let mut prefix = Text::new(rt.alloc());
    for (count, character) in rich.chars().enumerate() {
        assert_eq!(rt; counted(rt.alloc(), &prefix)?, (0, count));
        prefix.push(character as u32)?;
    }
    assert_eq!(rt; counted(rt.alloc(), &prefix)?, (31, 0));
    Ok(())
}

#[test]
fn a_million_characters_are_read(rt: HostRuntime) -> Result<(), Fail> {
    let cases = [
        ('[', (0, 1_000_000)),
        ('9', (1, 0)),
        (' ', (0, 1_000_000)),
        ('0', (0, 1)),
        ('"', (0, 2)),
    ];
    for (character, want) in cases {
        let text = repeated(rt.alloc(), character, 1_000_000)?;
        assert_eq!(rt; counted(rt.alloc(), &text)?, want, "{character}");
    }
    Ok(())
}
