//! Standard output as a console.

ghost use Rattle.std.specs.Prelude.{◌≡◌};
ghost use Rattle.helix.specs.Untold.{untold_screen};

use crate::counting::fault;
use helix_outside::{Console, Failed};
use std::io;
use std::io::Write;

/// Standard output. It tells nothing of what it holds, and counts each failure.
#[derive(Drop)]
pub struct RealConsole<'a, R: Print> {
    rt: &'a R,
    faults: u64,
}

impl<'a, R: Print> RealConsole<'a, R> {
    /// Nothing has failed.
    pub fn open(rt: &'a R) -> RealConsole<'a, R>
        ensures { result.faults ≡ 0 }
    {
        RealConsole { rt, faults: 0 }
    }
}

impl<R: Print> Console for RealConsole<'_, R> {
    ghost screen = { λ console. untold_screen console.faults };

    fn line(&mut self, bytes: &[u8]) -> Result<(), Failed> {
        match write_line(self.rt, bytes) {
            Ok(()) => Ok(()),
            Err(_) => Err(fault(&mut self.faults)),
        }
    }
}

/// Writes the bytes and an LF.
fn write_line<R: Print>(rt: &R, bytes: &[u8]) -> io::Result<()> {
    let mut output = io::writer(rt);
    output.write_all(bytes)?;
    output.write_all(b"\n")?;
    output.flush()
}
