//! How a run ends.

ghost use Rattle.std.specs.Prelude.{◌≡◌};
ghost use Rattle.helix_lines.specs.Lines.{status_of};

use crate::status::Status;
use helix_base::Bytes;
use helix_command::OptionName;

/// How a run ends, before it is shown.
#[derive(Debug, Drop)]
pub enum Ending {
    /// The word with this number, from 1, names no option.
    Word(u64),
    /// The option is faulty.
    Option(OptionName),
    /// The disk failed to read, or a file that is to be read isn't there.
    ReadFault,
    /// The disk failed to write, or a file is there that isn't to be replaced.
    WriteFault,
    /// An allocation failed.
    WantOfMemory,
    /// The profile breaks a rule, as this line tells.
    ProfileRefused(Bytes),
    /// The token is refused, as this line tells.
    TokenRefused(Bytes),
    /// All rows above the token's were written, and this is their number.
    Done(u64),
    /// No row is good.
    Empty,
    /// So many rows were written, and further ones remain. The token is shown where it isn't in a file.
    Cut { rows: u64, token: Option<Bytes> },
}

impl Ending {
    /// The status of the ending, where its lines are shown.
    pub fn status(&self) -> Status
        ensures { result ≡ status_of self.now }
    {
        match self {
            Ending::Word(_) | Ending::Option(_) => Status::Usage,
            Ending::ReadFault => Status::ReadFault,
            Ending::WriteFault => Status::WriteFault,
            Ending::WantOfMemory => Status::WantOfMemory,
            Ending::ProfileRefused(_) => Status::ProfileRefused,
            Ending::TokenRefused(_) => Status::TokenRefused,
            Ending::Done(_) => Status::Done,
            Ending::Empty => Status::Empty,
            Ending::Cut { .. } => Status::Cut,
        }
    }
}
