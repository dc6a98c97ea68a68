//! What is said on the console of an outcome.

ghost use Rattle.std.specs.Prelude.{◌≡◌, ◌≤◌, length};
ghost use Rattle.helix_run.specs.Lines.{done_line};
ghost use Rattle.helix_run.specs.Inner.Outcome.{Tells, line_for, status_for};

use crate::outcome::Outcome;
use crate::status::Status;
use arrayvec::ArrayString;
use helix_outside::Console;
use itoa::Buffer;

/// Shows the line of an outcome, and gives the status that it leads to.
pub fn tell<C: Console>(console: &mut C, outcome: Outcome) -> Status
    ensures { Tells outcome (C.screen console.old) result (C.screen console.new) }
{
    let line = line_for(outcome);
    let shown = console.line(line.as_str().as_bytes());
    status_for(outcome, shown.is_ok())
}

/// The line for an outcome.
fn line_for(outcome: Outcome) -> ArrayString<64>
    ensures { result.bytes ≡ line_for outcome }
{
    match outcome {
        Outcome::Usage => line("usage"),
        Outcome::ReadFault => line("fault: read"),
        Outcome::ProfileRefused => line("refused: rule NotYet at #"),
        Outcome::WriteFault => line("fault: write"),
        Outcome::WantOfMemory => line("fault: memory"),
        Outcome::Done(rows) => done_line(rows),
    }
}

/// A line of a fixed text.
fn line(text: &str) -> ArrayString<64>
    requires { length text.now ≤ 64 }
    ensures { result.bytes ≡ text.now }
{
    let mut line = ArrayString::new();
    line.push_str(text);
    line
}

/// The line of a finished run: `done: N rows`.
fn done_line(rows: u64) -> ArrayString<64>
    ensures { result.bytes ≡ done_line rows }
{
    let mut digits = Buffer::new();
    let mut line = line("done: ");
    line.push_str(digits.format(rows));
    line.push_str(" rows");
    line
}

/// The status for an outcome. A finished run whose line isn't shown is a fault.
fn status_for(outcome: Outcome, shown: bool) -> Status
    ensures { result ≡ status_for outcome shown }
{
    match outcome {
        Outcome::Usage => Status::Usage,
        Outcome::ReadFault => Status::ReadFault,
        Outcome::ProfileRefused => Status::ProfileRefused,
        Outcome::WriteFault => Status::WriteFault,
        Outcome::WantOfMemory => Status::WantOfMemory,
        Outcome::Done(_) => {
            if shown {
                Status::Done
            } else {
                Status::WriteFault
            }
        }
    }
}
