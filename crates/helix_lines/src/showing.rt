//! Showing the ending of a run.

ghost use Rattle.std.specs.Prelude.{◌≡◌, ◌++◌};
ghost use Rattle.helix_lines.specs.Inner.Saying.{Says};
ghost use Rattle.helix_lines.specs.Lines.{text_of, unshown};
ghost use Rattle.helix_lines.specs.Shown.{Shows};
ghost use Rattle.helix_outside.specs.Console.{line_text};

use crate::ending::Ending;
use crate::fixed::{fixed_line, number_line, option_line};
use crate::status::Status;
use helix_outside::{Console, Failed};

/// Shows the lines of an ending, and gives the status that it leads to. It takes no memory.
pub fn show<C: Console>(console: &mut C, ending: &Ending) -> Status
    ensures { Shows ending.now (C.screen console.old) result (C.screen console.new) }
{
    match say(console, ending) {
        Ok(()) => ending.status(),
        Err(_) => unshown(ending.status()),
    }
}

/// The status where the console failed.
fn unshown(status: Status) -> Status
    ensures { result ≡ unshown status }
{
    match status {
        Status::Done | Status::Empty | Status::Cut => Status::WriteFault,
        other => other,
    }
}

/// Shows the lines of an ending.
fn say<C: Console>(console: &mut C, ending: &Ending) -> Result<(), Failed>
    ensures { Says (C.screen console.old) (text_of ending.now) result (C.screen console.new) }
{
    match ending {
        Ending::Word(number) => console.line(
            number_line("usage: word ", *number, "").as_str().as_bytes(),
        ),
        Ending::Option(option) => console.line(option_line(*option).as_str().as_bytes()),
        Ending::ReadFault => console.line(b"fault: read"),
        Ending::WriteFault => console.line(b"fault: write"),
        Ending::WantOfMemory => console.line(b"fault: memory"),
        Ending::ProfileRefused(line) => console.line(line.as_slice()),
        Ending::TokenRefused(line) => console.line(line.as_slice()),
        Ending::Done(rows) => console.line(
            number_line("done: ", *rows, " rows").as_str().as_bytes(),
        ),
        Ending::Empty => console.line(b"empty: 0 rows"),
        Ending::Cut { rows, token: None } => {
            console.line(number_line("cut: ", *rows, " rows").as_str().as_bytes())
        }
        Ending::Cut {
            rows,
            token: Some(token),
        } => {
            say_both(
                console,
                number_line("cut: ", *rows, " rows").as_str().as_bytes(),
                token.as_slice(),
            )
        }
    }
}

/// Shows two lines.
fn say_both<C: Console>(console: &mut C, first: &[u8], second: &[u8]) -> Result<(), Failed>
    ensures { Says (C.screen console.old) (line_text first.now ++ line_text second.now) result (C.screen console.new) }
{
    console.line(first)?;
    console.line(second)
}
