//! The files of the system as a disk.

ghost use Rattle.std.specs.Prelude.{◌≡◌, ℕ, None};
ghost use Rattle.helix_outside.specs.Disk.{DiskState};
ghost use Rattle.helix.specs.Untold.{untold};

use crate::counting::fault;
use helix_outside::{Disk, Failed};
use std::fs;
use std::fs::File;
use std::io::{Read, Write};
use std::rt::Files;

/// The files of the system. It tells nothing of what they hold, and counts each failure.
#[derive(Drop)]
pub struct RealDisk<'a, R: Files> {
    rt: &'a R,
    input: Option<R::File>,
    output: Option<R::File>,
    read_faults: u64,
    write_faults: u64,
}

impl<'a, R: Files> RealDisk<'a, R> {
    /// How many reads failed so far, and how many writes.
    #[cfg(test)]
    pub fn faults(&self) -> (u64, u64)
        ensures { result ≡ (self.now.read_faults, self.now.write_faults) }
    {
        (self.read_faults, self.write_faults)
    }

    /// Nothing is open, and nothing has failed.
    pub fn open(rt: &'a R) -> RealDisk<'a, R>
        ensures input { result.input ≡ None }
        ensures output { result.output ≡ None }
        ensures read_faults { result.read_faults ≡ 0 }
        ensures write_faults { result.write_faults ≡ 0 }
    {
        RealDisk {
            rt,
            input: None,
            output: None,
            read_faults: 0,
            write_faults: 0,
        }
    }
}

impl<R: Files> Disk for RealDisk<'_, R> {
    ghost state = { λ disk. untold disk.input disk.output disk.read_faults disk.write_faults };

    fn begin_read(&mut self, name: &str) -> Result<(), Failed> {
        self.input = None;
        match fs::open(self.rt, name) {
            Ok(file) => {
                self.input = Some(file);
                Ok(())
            }
            Err(_) => Err(fault(&mut self.read_faults)),
        }
    }

    fn read(&mut self, buffer: &mut [u8]) -> Result<usize, Failed> {
        match self.input.as_mut().unwrap().read(buffer) {
            Ok(count) => Ok(count),
            Err(_) => Err(fault(&mut self.read_faults)),
        }
    }

    fn begin_write(&mut self, name: &str, replace: bool) -> Result<(), Failed> {
        self.input = None;
        self.output = None;
        let made = if replace {
            fs::create(self.rt, name)
        } else {
            File::create_new(self.rt, name)
        };
        match made {
            Ok(file) => {
                self.output = Some(file);
                Ok(())
            }
            Err(_) => Err(fault(&mut self.write_faults)),
        }
    }

    fn write(&mut self, bytes: &[u8]) -> Result<usize, Failed> {
        match self.output.as_mut().unwrap().write(bytes) {
            Ok(count) if count > 0 || bytes.is_empty() => Ok(count),
            _ => Err(fault(&mut self.write_faults)),
        }
    }

    fn finish(&mut self) -> Result<(), Failed> {
        let flushed = self.output.as_mut().unwrap().flush();
        self.output = None;
        match flushed {
            Ok(()) => Ok(()),
            Err(_) => Err(fault(&mut self.write_faults)),
        }
    }
}
