//! A disk: files that are read and written in pieces.

ghost use Rattle.std.specs.Prelude.{IsSome};
ghost use Rattle.helix_outside.specs.Disk.{DiskState, BeginsRead, ReadsSome, BeginsWrite, WritesSome, Finishes};

use std::error::Error;
use std::fmt;

/// A call of a disk or a console failed. Which part of the count of faults rose says where.
#[derive(Clone, Copy, Debug, PartialEq, Eq, Hash)]
pub struct Failed;

impl fmt::Display for Failed {
    fn fmt<W: fmt::Write>(&self, f: &mut fmt::Formatter<W>) -> fmt::Result {
        write!(f, "the disk or the console failed")
    }
}

impl Error for Failed {}

/// Files that are read and written in pieces. At most one input and one output are open.
///
/// A disk may tell what its files hold, or not; its count of faults has a part for reading and one for
/// writing.
pub trait Disk {
    /// What is known of the disk.
    ghost state: { Self → DiskState };

    /// Opens a file at its first byte, and closes an earlier input.
    fn begin_read(&mut self, name: &str) -> Result<(), Failed>
        ensures { BeginsRead (state self.old) name.now result (state self.new) };

    /// Fills a prefix of `buffer` with the next bytes of the open input, and answers their number:
    /// 0 where the input is at its end.
    fn read(&mut self, buffer: &mut [u8]) -> Result<usize, Failed>
        requires { IsSome (state self.old).input }
        ensures { ReadsSome (state self.old) buffer.new result (state self.new) };

    /// Makes a file empty and opens it, and closes an earlier input and an earlier output. Without `replace`
    /// a file that is there is left as it is.
    fn begin_write(&mut self, name: &str, replace: bool) -> Result<(), Failed>
        ensures { BeginsWrite (state self.old) name.now replace result (state self.new) };

    /// Appends a prefix of `bytes` to the open output, and answers its length.
    fn write(&mut self, bytes: &[u8]) -> Result<usize, Failed>
        requires { IsSome (state self.old).output }
        ensures { WritesSome (state self.old) bytes.now result (state self.new) };

    /// Closes the open output.
    fn finish(&mut self) -> Result<(), Failed>
        requires { IsSome (state self.old).output }
        ensures { Finishes (state self.old) result (state self.new) };
}
