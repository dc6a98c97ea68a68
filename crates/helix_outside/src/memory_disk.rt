//! A disk in memory, some of whose calls fail.

ghost use Rattle.std.specs.Prelude.{◌≡◌, ◌↔◌, [], None, min, length, drop, IsSome, IsErr, IsTrue};
ghost use Rattle.std.specs.Prelude.{OnOk, OnErr, IfOk, MatchResult, unwrap_or, option_copied};
ghost use Rattle.std.specs.FinMap.{get, insert};
ghost use Rattle.helix_outside.specs.Disk.{BeginsRead, ReadsSome, BeginsWrite, WritesSome, Finishes};
ghost use Rattle.helix_outside.specs.DiskInMemory.{state_of, opened, IsCall, IsDue};

use crate::calls::Calls;
use crate::counting::{fault, next_call};
use crate::disk::{Disk, Failed};
use crate::files::Files;
use crate::input::Input;
use std::alloc::Global;
use std::marker::Model;

/// Files in memory as a disk that tells them. The calls of the trait are numbered together from 1; those
/// whose numbers are listed fail, and change no file.
#[derive(Debug, Drop)]
pub struct MemoryDisk {
    files: Files,
    input: Option<Input>,
    output: Option<Vec<u8>>,
    read_faults: u64,
    write_faults: u64,
    calls: u64,
    failing: Calls,
}

impl Model for MemoryDisk {
    ghost use Rattle.std.specs.Prelude.{option_map};
    ghost use Rattle.helix_outside.specs.DiskInMemory.{DiskInMemory, disk_code};

    ghost Value = { DiskInMemory };

    ghost coded = { disk_code };

    ghost view = { λ d. record {
      files = d.files;
      input = d.input;
      output = option_map (λ name. name.items) d.output;
      read_faults = d.read_faults;
      write_faults = d.write_faults;
      calls = d.calls;
      failing = d.failing;
    } };
}

impl MemoryDisk {
    /// A disk with these files.
    pub fn open(files: Files, failing: Calls) -> MemoryDisk
        ensures { result ≡ opened files failing }
    {
        MemoryDisk {
            files,
            input: None,
            output: None,
            read_faults: 0,
            write_faults: 0,
            calls: 0,
            failing,
        }
    }

    /// What a file holds, or `None` where no file has this name.
    pub fn file(&self, name: &str) -> Option<&[u8]>
        ensures { option_copied result ≡ get self.now.files name.now }
    {
        self.files.get(name.as_bytes())
    }

    /// How many calls of the trait were made.
    pub fn calls(&self) -> u64
        ensures { result ≡ self.now.calls }
    {
        self.calls
    }

    pub fn read_faults(&self) -> u64
        ensures { result ≡ self.now.read_faults }
    {
        self.read_faults
    }

    pub fn write_faults(&self) -> u64
        ensures { result ≡ self.now.write_faults }
    {
        self.write_faults
    }
}

impl Disk for MemoryDisk {
    ghost state = { state_of };

    fn begin_read(&mut self, name: &str) -> Result<(), Failed>
        ensures meaning { BeginsRead (state_of self.old) name.now result (state_of self.new) }
        ensures call { IsCall self.old result self.new }
    {
        let due = next_call(self.failing.as_slice(), &mut self.calls);
        self.input = None;
        match self.files.get(name.as_bytes()) {
            None => Err(Failed),
            Some(bytes) => match opened_input(self.files.allocator(), due, bytes) {
                Ok(input) => {
                    self.input = Some(input);
                    Ok(())
                }
                Err(_) => Err(fault(&mut self.read_faults)),
            },
        }
    }

    fn read(&mut self, buffer: &mut [u8]) -> Result<usize, Failed>
        requires { IsSome self.old.input }
        ensures meaning { ReadsSome (state_of self.old) buffer.new result (state_of self.new) }
        ensures call { IsCall self.old result self.new }
        ensures due { IsErr result ↔ IsDue self.old }
        ensures count { IfOk result (λ n. n ≡ min (length buffer.old) (length (unwrap_or self.old.input []))) }
        ensures others { MatchResult result (λ n. drop n buffer.new ≡ drop n buffer.old)
            (λ _. buffer.new ≡ buffer.old) }
    {
        if next_call(self.failing.as_slice(), &mut self.calls) {
            return Err(fault(&mut self.read_faults));
        }
        match &mut self.input {
            Some(input) => Ok(input.read(buffer)),
            None => unreachable!(),
        }
    }

    fn begin_write(&mut self, name: &str, replace: bool) -> Result<(), Failed>
        ensures meaning { BeginsWrite (state_of self.old) name.now replace result (state_of self.new) }
        ensures call { IsCall self.old result self.new }
    {
        let due = next_call(self.failing.as_slice(), &mut self.calls);
        close(&mut self.input, &mut self.output);
        if !replace && self.files.get(name.as_bytes()).is_some() {
            return Err(Failed);
        }
        match opened_output(&mut self.files, due, name.as_bytes()) {
            Ok(output) => {
                self.output = Some(output);
                Ok(())
            }
            Err(_) => Err(fault(&mut self.write_faults)),
        }
    }

    fn write(&mut self, bytes: &[u8]) -> Result<usize, Failed>
        requires { IsSome self.old.output }
        ensures meaning { WritesSome (state_of self.old) bytes.now result (state_of self.new) }
        ensures call { IsCall self.old result self.new }
        ensures whole { IfOk result (λ n. n ≡ length bytes.now) }
        ensures none { OnErr result (self.new.files ≡ self.old.files) }
    {
        let due = next_call(self.failing.as_slice(), &mut self.calls);
        let Some(name) = &self.output else {
            unreachable!()
        };
        if due || self.files.append(name.as_slice(), bytes).is_err() {
            return Err(fault(&mut self.write_faults));
        }
        Ok(bytes.len())
    }

    fn finish(&mut self) -> Result<(), Failed>
        requires { IsSome self.old.output }
        ensures meaning { Finishes (state_of self.old) result (state_of self.new) }
        ensures call { IsCall self.old result self.new }
        ensures due { IsErr result ↔ IsDue self.old }
    {
        self.output = None;
        if next_call(self.failing.as_slice(), &mut self.calls) {
            return Err(fault(&mut self.write_faults));
        }
        Ok(())
    }
}

/// Closes what is open. The bytes that were written stay.
fn close(input: &mut Option<Input>, output: &mut Option<Vec<u8>>)
    ensures input { input.new ≡ None }
    ensures output { output.new ≡ None }
{
    *input = None;
    *output = None;
}

/// An input at the first of these bytes, unless the call is due to fail.
fn opened_input(alloc: Global, due: bool, bytes: &[u8]) -> Result<Input, Failed>
    ensures ok { IfOk result (λ input. input ≡ bytes.now) }
    ensures due { IsTrue due → IsErr result }
{
    if due {
        return Err(Failed);
    }
    match Input::of(alloc, bytes) {
        Ok(input) => Ok(input),
        Err(_) => Err(Failed),
    }
}

/// Makes a file empty, unless the call is due to fail, and answers its name.
fn opened_output(files: &mut Files, due: bool, name: &[u8]) -> Result<Vec<u8>, Failed>
    ensures named { IfOk result (λ output. output.items ≡ name.now) }
    ensures emptied { OnOk result (files.new ≡ insert files.old name.now []) }
    ensures due { IsTrue due → IsErr result }
    ensures err { OnErr result (files.new ≡ files.old) }
{
    if due {
        return Err(Failed);
    }
    let Ok(output) = Vec::from_slice(files.allocator(), name) else {
        return Err(Failed);
    };
    match files.set(name, &[]) {
        Ok(()) => Ok(output),
        Err(_) => Err(Failed),
    }
}
