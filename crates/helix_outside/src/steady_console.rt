//! A console that never fails and keeps nothing.

ghost use Rattle.std.specs.Prelude.{IsOk};
ghost use Rattle.helix_outside.specs.Console.{AddsLine};
ghost use Rattle.helix_outside.specs.SteadyConsole.{steady_screen};

use crate::console::Console;
use crate::disk::Failed;

/// A console on which every line is shown, and that doesn't tell its text.
#[derive(Clone, Copy, Debug, PartialEq, Eq, Hash)]
pub struct SteadyConsole;

impl SteadyConsole {
    pub fn open() -> SteadyConsole {
        SteadyConsole
    }
}

impl Console for SteadyConsole {
    ghost screen = { λ _. steady_screen };

    fn line(&mut self, bytes: &[u8]) -> Result<(), Failed>
        ensures meaning { AddsLine steady_screen bytes.now result steady_screen }
        ensures never_fails { IsOk result }
    {
        Ok(())
    }
}
