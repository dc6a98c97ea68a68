//! A console: lines that are shown one after the other.

ghost use Rattle.helix_outside.specs.Console.{Screen, AddsLine};

use crate::disk::Failed;

/// Where the lines of a run are shown. A console may tell its text, or not.
pub trait Console {
    /// What is known of the console.
    ghost screen: { Self → Screen };

    /// Shows the bytes and an LF.
    fn line(&mut self, bytes: &[u8]) -> Result<(), Failed>
        ensures { AddsLine (screen self.old) bytes.now result (screen self.new) };
}
