//! A console in memory, some of whose calls fail.

ghost use Rattle.std.specs.Prelude.{◌≡◌, ◌++◌, OnOk, OnErr};
ghost use Rattle.helix_outside.specs.Console.{AddsLine, line_text};
ghost use Rattle.helix_outside.specs.ConsoleInMemory.{screen_of, blank, IsLine};

use crate::calls::Calls;
use crate::console::Console;
use crate::counting::{fault, next_call};
use crate::disk::Failed;
use helix_base::Memory;
use std::marker::Model;

/// A console that keeps and tells its text. Its calls are numbered from 1; those whose numbers are listed
/// fail, and add nothing.
#[derive(Debug, Drop)]
pub struct MemoryConsole {
    text: Vec<u8>,
    faults: u64,
    calls: u64,
    failing: Calls,
}

impl Model for MemoryConsole {
    ghost use Rattle.helix_outside.specs.ConsoleInMemory.{ConsoleInMemory, console_code};

    ghost Value = { ConsoleInMemory };

    ghost coded = { console_code };

    ghost view = { λ c. record { text = c.text.items; faults = c.faults; calls = c.calls; failing = c.failing } };
}

impl MemoryConsole {
    /// A console that has shown nothing. It uses the allocator of the list.
    pub fn open(failing: Calls) -> MemoryConsole
        ensures { result ≡ blank failing }
    {
        MemoryConsole {
            text: Vec::new(failing.allocator()),
            faults: 0,
            calls: 0,
            failing,
        }
    }

    /// All bytes so far.
    pub fn text(&self) -> &[u8]
        ensures { result.now ≡ self.now.text }
    {
        self.text.as_slice()
    }

    pub fn faults(&self) -> u64
        ensures { result ≡ self.now.faults }
    {
        self.faults
    }
}

impl Console for MemoryConsole {
    ghost screen = { screen_of };

    fn line(&mut self, bytes: &[u8]) -> Result<(), Failed>
        ensures meaning { AddsLine (screen_of self.old) bytes.now result (screen_of self.new) }
        ensures call { IsLine self.old result self.new }
    {
        if next_call(self.failing.as_slice(), &mut self.calls) {
            return Err(fault(&mut self.faults));
        }
        match add_line(&mut self.text, bytes) {
            Ok(()) => Ok(()),
            Err(_) => Err(fault(&mut self.faults)),
        }
    }
}

/// Appends the bytes and an LF, or nothing.
fn add_line(text: &mut Vec<u8>, bytes: &[u8]) -> Result<(), Memory>
    ensures ok { OnOk result (text.new.items ≡ text.old.items ++ line_text bytes.now) }
    ensures err { OnErr result (text.new.items ≡ text.old.items) }
{
    let before = text.len();
    text.extend_from_slice(bytes)?;
    match text.push(b'\n') {
        Ok(()) => Ok(()),
        Err(_) => {
            text.truncate(before);
            Err(Memory)
        }
    }
}
