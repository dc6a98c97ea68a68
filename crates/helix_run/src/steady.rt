//! A run over an environment that never fails.

ghost use Rattle.std.specs.Prelude.{◌≡◌, ◌≢◌, map, string_bytes, None};
ghost use Rattle.helix_outside.specs.SteadyConsole.{steady_screen};
ghost use Rattle.helix_outside.specs.SteadyDisk.{steady_state};
ghost use Rattle.helix_run.specs.Causes.{Cause};
ghost use Rattle.helix_run.specs.Environment.{environment};
ghost use Rattle.helix_run.specs.Words.{order_of};

use crate::status::Status;
use crate::top::run;
use helix_outside::{SteadyConsole, SteadyDisk};
use std::alloc::Global;

/// Runs over a disk and a console that never fail: such a run answers no fault of theirs, and each
/// other status for its cause.
pub fn run_steady(
    alloc: Global,
    words: &[String],
    disk: &mut SteadyDisk,
    console: &mut SteadyConsole,
) -> Status
    ensures no_read_fault { result ≢ Status.ReadFault }
    ensures no_write_fault { result ≢ Status.WriteFault }
    ensures cause { Cause (map string_bytes words.now)
        (environment (steady_state disk.old) steady_screen) result (environment (steady_state disk.new) steady_screen) }
    ensures usage_comes { order_of (map string_bytes words.now) ≡ None → result ≢ Status.WantOfMemory
        → result ≡ Status.Usage }
{
    run(alloc, words, disk, console)
}
