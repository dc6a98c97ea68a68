//! Tests of what no clause says: that orders come where memory is ample, and the words of the options.

mod clashes;
mod faults;
mod orders;

use crate::{Order, WordsFault, read_words};
use std::alloc::Global;
use std::test::Fail;

/// The words of a line, between `|`.
fn words(alloc: Global, line: &str) -> Result<Vec<String>, Fail> {
    let mut words = Vec::new(alloc);
    for word in line.split('|') {
        words.push(String::from_str(alloc, word)?)?;
    }
    Ok(words)
}

/// What the words of a line give.
fn read(alloc: Global, line: &str) -> Result<Result<Order, WordsFault>, Fail> {
    let words = words(alloc, line)?;
    Ok(read_words(alloc, words.as_slice()))
}
