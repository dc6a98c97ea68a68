//! Cases of the readers, as data: the program answers each line of its standard input by one line.
//!
//! ```text
//! json {"a":[1]}        {'a':[#1 ] }
//! units 1.5             1500000000000000
//! pattern a|b           (97|98)
//! ```
//!
//! A line is a word that names a reader, a blank, and a text, in which `%` and two hexadecimal digits are one byte; a
//! word alone is given the empty text. A line that begins with `#`, and an empty one, is answered by itself. The gate gives the program the cases in `stdin`
//! and compares its answers with those in `stdout`, which were written by hand. A case costs no proof here, and so a
//! large table is one of these, not a test.
#![tactic(auto)]

mod bytes;
mod case;
mod json;
mod pattern;

use crate::case::answer;
use std::io;

fn main(rt: HostRuntime) -> io::Result<()> {
    for line in rt.lines(rt.alloc()) {
        match answer(rt.alloc(), line?.as_str()) {
            Ok(text) => println!(rt; "{text}")?,
            Err(_) => println!(rt; "out of memory")?,
        }
    }
    Ok(())
}
