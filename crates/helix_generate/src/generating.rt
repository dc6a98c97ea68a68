//! Generating the rows of a job.

ghost use Rattle.std.specs.Prelude.{◌≤◌, IfSome, IsTrue};
ghost use Rattle.helix_generate.specs.Generating.{Generates};
ghost use Rattle.helix_generate.specs.Inner.Steps.{EndsUnloaded};
ghost use Rattle.helix_generate.specs.Starts.{Gives};

use crate::data::write_from;
use crate::resume::resumed;
use helix_command::Job;
use helix_lines::{Ending, refused_line};
use helix_loading::{LoadFault, Loaded, load};
use helix_outside::Disk;
use std::alloc::Global;

/// Writes the rows of a job into its data file, and the token of a cut one into the token file, if the job has one.
pub fn generate<D: Disk>(alloc: Global, job: &Job, disk: &mut D) -> Ending
    requires limit { 1 ≤ job.now.limit }
    requires violate { IfSome job.now.violate (λ number. 1 ≤ number) }
    ensures { Generates job.now (D.state disk.old) result (D.state disk.new) }
{
    match load(alloc, disk, &job.profile, job.alphabet, job.violate) {
        Ok(loaded) => generate_from(alloc, job, loaded, disk),
        Err(fault) => unloaded(alloc, &fault),
    }
}

/// The ending where no profile was loaded.
fn unloaded(alloc: Global, fault: &LoadFault) -> Ending
    ensures { EndsUnloaded fault.now result }
{
    match fault {
        LoadFault::Read => Ending::ReadFault,
        LoadFault::Refused(refused) => match refused_line(alloc, refused) {
            Ok(line) => Ending::ProfileRefused(line),
            Err(_) => Ending::WantOfMemory,
        },
        LoadFault::Memory => Ending::WantOfMemory,
    }
}

/// Writes the rows of what was loaded.
fn generate_from<D: Disk>(alloc: Global, job: &Job, loaded: Loaded, disk: &mut D) -> Ending
    requires { 1 ≤ job.now.limit }
    ensures { (IsTrue (D.state disk.old).told → Gives job.now (D.state disk.old).files loaded)
        → Generates job.now (D.state disk.old) result (D.state disk.new) }
{
    match resumed(alloc, disk, job, &loaded) {
        Ok(start) => write_from(alloc, job, loaded, start, disk),
        Err(ending) => ending,
    }
}
