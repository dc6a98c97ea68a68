//! The data file of a job.

ghost use Rattle.std.specs.Prelude.{◌≡◌, ◌≤◌, List, Option, IfSome, IsTrue, true};
ghost use Rattle.helix_generate.specs.Generating.{Generates};
ghost use Rattle.helix_generate.specs.Inner.Ends.{EndsWritten};
ghost use Rattle.helix_generate.specs.Inner.Steps.{IsReady};
ghost use Rattle.helix_generate.specs.Starts.{Gives, StartsAfter};
ghost use Rattle.helix_loading.specs.declared.loaded.Loaded.{Loaded as Loads};
ghost use Rattle.helix_output.specs.Fitting.{FitsFields};
ghost use Rattle.helix_profile.specs.Good.{AreCellsOf};
ghost use Rattle.helix_values.specs.declared.cell.Cell.{Cell};

use crate::cut::end_cut;
use crate::preparing::{Ready, prepare};
use helix_command::Job;
use helix_lines::Ending;
use helix_loading::Loaded;
use helix_outside::Disk;
use helix_values::Row;
use helix_writing::{DataFile, WriteFault, Written, write_rows};
use std::alloc::Global;

/// Writes the rows above a start.
pub fn write_from<D: Disk>(
    alloc: Global,
    job: &Job,
    loaded: Loaded,
    start: Option<Row>,
    disk: &mut D,
) -> Ending
    requires limit { 1 ≤ job.now.limit }
    requires cells { IfSome start (AreCellsOf loaded.profile.fields) }
    ensures { (IsTrue (D.state disk.old).told → Gives job.now (D.state disk.old).files loaded)
        → (IsTrue (D.state disk.old).told → StartsAfter job.now (D.state disk.old).files loaded start)
        → Generates job.now (D.state disk.old) result (D.state disk.new) }
{
    match prepare(alloc, job, loaded, start) {
        Ok(mut ready) => write_ready(alloc, job, &mut ready, disk),
        Err(_) => Ending::WantOfMemory,
    }
}

/// The same, once all is ready.
fn write_ready<D: Disk>(alloc: Global, job: &Job, ready: &mut Ready, disk: &mut D) -> Ending
    requires limit { 1 ≤ job.now.limit }
    requires ready { (loaded : Loads) × (start : Option (List Cell)) × IsReady job.now loaded start ready.old }
    ensures { (loaded : Loads) (start : Option (List Cell)) → IsReady job.now loaded start ready.old
        → (IsTrue (D.state disk.old).told → Gives job.now (D.state disk.old).files loaded)
        → (IsTrue (D.state disk.old).told → StartsAfter job.now (D.state disk.old).files loaded start)
        → Generates job.now (D.state disk.old) result (D.state disk.new) }
{
    let file = DataFile {
        name: ready.output.as_str(),
        replace: job.replace,
        format: job.format,
        limit: job.limit,
    };
    match write_rows(
        disk,
        file,
        &mut ready.rows,
        ready.first,
        &mut ready.last,
        &mut ready.line,
        &mut ready.block,
    ) {
        Ok(written) => end_written(alloc, job, ready, written, disk),
        Err(WriteFault::Failed) => Ending::WriteFault,
        Err(WriteFault::Memory) => Ending::WantOfMemory,
    }
}

/// The ending where the data file is written.
fn end_written<D: Disk>(
    alloc: Global,
    job: &Job,
    ready: &Ready,
    written: Written,
    disk: &mut D,
) -> Ending
    requires { written.cut ≡ true → FitsFields ready.now.rows.profile.fields ready.now.last }
    ensures { EndsWritten job.now ready.now written (D.state disk.old) result (D.state disk.new) }
{
    if written.cut {
        return end_cut(alloc, job, ready, written.rows, disk);
    }
    if ready.some {
        Ending::Done(written.rows)
    } else {
        Ending::Empty
    }
}
