//! The token of a cut run.

ghost use Rattle.std.specs.Prelude.{◌≡◌};
ghost use Rattle.helix_generate.specs.Inner.Ends.{EndsCut, EndsFile};
ghost use Rattle.helix_output.specs.Fitting.{FitsFields};
ghost use Rattle.helix_token.specs.Token.{token_text};

use crate::preparing::Ready;
use helix_base::Bytes;
use helix_command::Job;
use helix_lines::Ending;
use helix_outside::Disk;
use helix_token::write_token;
use helix_writing::write_file;
use std::alloc::Global;

/// The ending of a cut run: its token is to be shown, or goes to a file with a line feed.
pub fn end_cut<D: Disk>(alloc: Global, job: &Job, ready: &Ready, rows: u64, disk: &mut D) -> Ending
    requires { FitsFields ready.now.rows.profile.fields ready.now.last }
    ensures { EndsCut job.now.replace ready.now rows (D.state disk.old) result (D.state disk.new) }
{
    let fields = ready.rows.profile().fields();
    match write_token(alloc, &ready.identity, fields, &ready.last) {
        Ok(token) => put_token(ready, rows, token, job.replace, disk),
        Err(_) => Ending::WantOfMemory,
    }
}

/// Puts the token where it belongs.
fn put_token<D: Disk>(ready: &Ready, rows: u64, token: Bytes, replace: bool, disk: &mut D) -> Ending
    requires { token ≡ token_text ready.now.identity ready.now.rows.profile.fields ready.now.last }
    ensures { EndsCut replace ready.now rows (D.state disk.old) result (D.state disk.new) }
{
    match &ready.token {
        None => Ending::Cut {
            rows,
            token: Some(token),
        },
        Some(name) => file_token(name.as_str(), rows, token, replace, disk),
    }
}

/// Writes the token into a file, with a line feed.
fn file_token<D: Disk>(
    name: &str,
    rows: u64,
    mut token: Bytes,
    replace: bool,
    disk: &mut D,
) -> Ending
    ensures { EndsFile name.now token replace rows (D.state disk.old) result (D.state disk.new) }
{
    if token.push(b'\n').is_err() {
        return Ending::WantOfMemory;
    }
    match write_file(disk, name, token.as_slice(), replace) {
        Ok(()) => Ending::Cut { rows, token: None },
        Err(_) => Ending::WriteFault,
    }
}
