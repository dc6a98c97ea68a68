use crate::{JsonFault, read};
use std::test::Fail;

/// A text with every kind of token, and with a character of two bytes after the first four.
const RICH: &[u8] =
    b" {\"k\xc3\xa9\\u00e9\\ud83d\\ude00\\n\":[1, -2.5e+3,0 ,true,false,null,\"\",{}],\"b\":{\"c\":[]}}";

#[test]
fn each_prefix_of_a_text_needs_more(rt: HostRuntime) -> Result<(), Fail> {
    for count in 0..RICH.len() {
        let at = count as u64;
        let want = if count == 5 {
            JsonFault::NotUtf8 { at: 4 }
        } else {
            JsonFault::Grammar { at }
        };
        assert_eq!(rt; read(rt.alloc(), &RICH[..count]).err(), Some(want));
    }
    assert!(rt; read(rt.alloc(), RICH).is_ok());
    Ok(())
}
