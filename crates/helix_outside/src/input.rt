//! An open input: what is left of a file as it was when it was opened.

ghost use Rattle.std.specs.Prelude.{◌≡◌, ◌++◌, ◌-◌, min, length, take, drop, IfOk};

use helix_base::Memory;
use std::alloc::Global;
use std::marker::Model;

/// A copy of a file and how far it was read, that contracts see as the bytes that are left.
#[derive(Debug, Drop)]
pub(crate) struct Input {
    bytes: Vec<u8>,
    position: usize,
}

impl Model for Input {
    ghost use Rattle.std.specs.Prelude.{List, ℕ, drop};

    ghost Value = { List ℕ };

    ghost view = { λ input. drop input.position input.bytes.items };
}

impl Input {
    pub(crate) fn of(alloc: Global, bytes: &[u8]) -> Result<Input, Memory>
        ensures { IfOk result (λ input. input ≡ bytes.now) }
    {
        Ok(Input {
            bytes: Vec::from_slice(alloc, bytes)?,
            position: 0,
        })
    }

    /// Fills a prefix of `buffer`, all of it where as many bytes are left, and answers its length.
    pub(crate) fn read(&mut self, buffer: &mut [u8]) -> usize
        ensures count { result ≡ min (length buffer.old) (length self.old) }
        ensures given { self.old ≡ take result buffer.new ++ self.new }
        ensures others { drop result buffer.new ≡ drop result buffer.old }
    {
        read_on(self.bytes.as_slice(), &mut self.position, buffer)
    }
}

/// Reads on in `bytes`, from `position` on: fills a prefix of `buffer`, all of it where as many bytes are
/// left, and answers its length.
pub(crate) fn read_on(bytes: &[u8], position: &mut usize, buffer: &mut [u8]) -> usize
    ensures count { result ≡ min (length buffer.old) (length (drop position.old bytes.now)) }
    ensures given { drop position.old bytes.now ≡ take result buffer.new ++ drop position.new bytes.now }
    ensures others { drop result buffer.new ≡ drop result buffer.old }
{
    let from = (*position).min(bytes.len());
    let count = fill(&bytes[from..], buffer);
    *position = from + count;
    count
}

/// Copies the start of `bytes` to the start of `buffer`, as much as both have.
fn fill(bytes: &[u8], buffer: &mut [u8]) -> usize
    ensures count { result ≡ min (length buffer.old) (length bytes.now) }
    ensures given { take result buffer.new ≡ take result bytes.now }
    ensures others { drop result buffer.new ≡ drop result buffer.old }
{
    let count = buffer.len().min(bytes.len());
    buffer[..count].copy_from_slice(&bytes[..count]);
    count
}
