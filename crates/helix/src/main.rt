//! The program helix: it hands the words of its command line, the files and the console to the run, and ends with
//! the number of the status that the run answers. Ending 8 says that memory ran out, and 9 that the system gave
//! a word that isn't text, or no words.
#![tactic(auto)]

mod counting;
mod real_console;
mod real_disk;
#[cfg(test)]
mod tests;

use crate::real_console::RealConsole;
use crate::real_disk::RealDisk;
use helix_run::{Status, run};
use std::process::ExitCode;
use std::{env, io};

/// The ending where the system gives a word that isn't text, or doesn't give the words.
const NO_WORDS: u8 = 9;

fn main(rt: HostRuntime) -> ExitCode {
    match words(&rt) {
        Ok(words) => {
            let mut disk = RealDisk::open(&rt);
            let mut console = RealConsole::open(&rt);
            ExitCode::from(run(rt.alloc(), &words, &mut disk, &mut console) as u8)
        }
        Err(error) => ExitCode::from(ending_without_words(&error)),
    }
}

/// The words after the program's name.
fn words(rt: &HostRuntime) -> io::Result<Vec<String>> {
    let mut words = Vec::new(rt.alloc());
    for word in env::args(rt)?.skip(1) {
        words.push(word)?;
    }
    Ok(words)
}

/// The ending where there are no words to run on.
fn ending_without_words(error: &io::Error) -> u8 {
    if error.kind() == io::ErrorKind::OutOfMemory {
        Status::WantOfMemory as u8
    } else {
        NO_WORDS
    }
}
