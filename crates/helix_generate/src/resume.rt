//! The row after which a job goes on.

ghost use Rattle.std.specs.Prelude.{◌≡◌, Some};
ghost use Rattle.helix_generate.specs.Inner.Steps.{EndsToken, FindsStart, TellsStart};

use helix_base::Text;
use helix_command::Job;
use helix_lines::{Ending, token_line};
use helix_loading::{Loaded, ReadError, read_file};
use helix_outside::Disk;
use helix_token::{TokenFault, read_token};
use helix_values::Row;
use std::alloc::Global;

/// The row of the token that a job goes on from, or nothing without a resume file.
pub fn resumed<D: Disk>(
    alloc: Global,
    disk: &mut D,
    job: &Job,
    loaded: &Loaded,
) -> Result<Option<Row>, Ending>
    ensures { FindsStart job.now loaded.now (D.state disk.old) result (D.state disk.new) }
{
    match &job.resume {
        None => Ok(None),
        Some(name) => resumed_from(alloc, disk, job, name, loaded),
    }
}

/// The same with a resume file.
fn resumed_from<D: Disk>(
    alloc: Global,
    disk: &mut D,
    job: &Job,
    name: &Text,
    loaded: &Loaded,
) -> Result<Option<Row>, Ending>
    requires { job.now.resume ≡ Some name.now }
    ensures { FindsStart job.now loaded.now (D.state disk.old) result (D.state disk.new) }
{
    let Ok(written) = name.written(alloc) else {
        return Err(Ending::WantOfMemory);
    };
    match read_file(alloc, disk, written.as_str()) {
        Ok(bytes) => start_of(alloc, bytes.as_slice(), loaded),
        Err(ReadError::Fault) => Err(Ending::ReadFault),
        Err(ReadError::Memory) => Err(Ending::WantOfMemory),
    }
}

/// The row of a token.
fn start_of(alloc: Global, bytes: &[u8], loaded: &Loaded) -> Result<Option<Row>, Ending>
    ensures { TellsStart loaded.now bytes.now result }
{
    match read_token(alloc, bytes, &loaded.identity, loaded.profile.fields()) {
        Ok(row) => Ok(Some(row)),
        Err(fault) => Err(untold(alloc, &fault)),
    }
}

/// The ending where bytes are no token.
fn untold(alloc: Global, fault: &TokenFault) -> Ending
    ensures { EndsToken fault.now result }
{
    match fault {
        TokenFault::Memory => Ending::WantOfMemory,
        TokenFault::Form | TokenFault::OtherProfile { .. } | TokenFault::Cell { .. } => {
            match token_line(alloc, fault) {
                Ok(line) => Ending::TokenRefused(line),
                Err(_) => Ending::WantOfMemory,
            }
        }
    }
}
