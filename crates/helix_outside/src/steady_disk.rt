//! A disk that never fails, and keeps nothing of what is written.

ghost use Rattle.std.specs.Prelude.{◌≡◌, ◌+◌, ◌++◌, [], Some, length, min, take, drop, IsSome, IfOk, unwrap_or};
ghost use Rattle.helix_base.specs.Count.{last_count};
ghost use Rattle.helix_outside.specs.Disk.{BeginsRead, ReadsSome, BeginsWrite, WritesSome, Finishes};
ghost use Rattle.helix_outside.specs.SteadyDisk.{steady_state, steady, reading, NeverFails};

use crate::disk::{Disk, Failed};
use crate::entries;
use crate::entries::Entry;
use crate::files::Files;
use crate::input::read_on;
use std::marker::Model;

/// How far which file was read.
#[derive(Clone, Copy, Debug, PartialEq, Eq, Hash)]
struct Reading {
    index: usize,
    position: usize,
}

/// Files that are read as they are, with a missing one read as empty. It counts what is written and keeps
/// none of it, so it doesn't tell its files.
#[derive(Debug, Drop)]
pub struct SteadyDisk {
    entries: Vec<Entry>,
    input: Option<Reading>,
    writing: bool,
    written: u64,
}

impl Model for SteadyDisk {
    ghost use Rattle.std.specs.Prelude.{option_map, drop};
    ghost use Rattle.helix_outside.specs.SteadyDisk.{Steady, steady_code};

    ghost Value = { Steady };

    ghost coded = { steady_code };

    ghost use Rattle.helix_outside.specs.Entries.{files_of, bytes_at};

    ghost view = { λ d. record {
      files = files_of d.entries.items;
      input = option_map (λ r. drop r.position (bytes_at d.entries.items r.index)) d.input;
      writing = d.writing;
      written = d.written;
    } };
}

impl SteadyDisk {
    /// A disk with these files.
    pub fn open(files: Files) -> SteadyDisk
        ensures { result ≡ steady files }
    {
        SteadyDisk {
            entries: files.into_entries(),
            input: None,
            writing: false,
            written: 0,
        }
    }

    /// How many bytes were written. The count stays at 2^64 - 1.
    pub fn written(&self) -> u64
        ensures { result ≡ self.now.written }
    {
        self.written
    }
}

impl Disk for SteadyDisk {
    ghost state = { steady_state };

    fn begin_read(&mut self, name: &str) -> Result<(), Failed>
        ensures meaning { BeginsRead (steady_state self.old) name.now result (steady_state self.new) }
        ensures passes { NeverFails self.old result self.new }
        ensures whole { self.new ≡ reading self.old name.now }
    {
        let index = entries::index_or_end(self.entries.as_slice(), name.as_bytes());
        self.input = Some(Reading { index, position: 0 });
        Ok(())
    }

    fn read(&mut self, buffer: &mut [u8]) -> Result<usize, Failed>
        requires { IsSome self.old.input }
        ensures meaning { ReadsSome (steady_state self.old) buffer.new result (steady_state self.new) }
        ensures passes { NeverFails self.old result self.new }
        ensures count { IfOk result (λ n. n ≡ min (length buffer.old) (length (unwrap_or self.old.input []))) }
        ensures given { IfOk result (λ n. self.old.input ≡ Some (take n buffer.new ++ unwrap_or self.new.input [])) }
        ensures others { IfOk result (λ n. drop n buffer.new ≡ drop n buffer.old) }
        ensures written { self.new.written ≡ self.old.written }
    {
        match &mut self.input {
            Some(input) => {
                let bytes = entries::bytes_at(self.entries.as_slice(), input.index);
                Ok(read_on(bytes, &mut input.position, buffer))
            }
            None => unreachable!(),
        }
    }

    fn begin_write(&mut self, name: &str, replace: bool) -> Result<(), Failed>
        ensures meaning { BeginsWrite (steady_state self.old) name.now replace result (steady_state self.new) }
        ensures passes { NeverFails self.old result self.new }
        ensures written { self.new.written ≡ self.old.written }
    {
        self.input = None;
        self.writing = true;
        Ok(())
    }

    fn write(&mut self, bytes: &[u8]) -> Result<usize, Failed>
        requires { IsSome (steady_state self.old).output }
        ensures meaning { WritesSome (steady_state self.old) bytes.now result (steady_state self.new) }
        ensures passes { NeverFails self.old result self.new }
        ensures whole { IfOk result (λ n. n ≡ length bytes.now) }
        ensures written { self.new.written ≡ min (self.old.written + length bytes.now) last_count }
    {
        self.written = self.written.saturating_add(bytes.len() as u64);
        Ok(bytes.len())
    }

    fn finish(&mut self) -> Result<(), Failed>
        requires { IsSome (steady_state self.old).output }
        ensures meaning { Finishes (steady_state self.old) result (steady_state self.new) }
        ensures passes { NeverFails self.old result self.new }
        ensures written { self.new.written ≡ self.old.written }
    {
        self.writing = false;
        Ok(())
    }
}
