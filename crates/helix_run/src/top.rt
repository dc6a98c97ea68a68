//! The top call.

ghost use Rattle.std.specs.Prelude.{◌≡◌, ◌≢◌, List, ℕ, map, string_bytes, IsTrue, IsNone, None, Some};
ghost use Rattle.std.specs.FinMap.{get};
ghost use Rattle.helix_outside.specs.Count.{Rose};
ghost use Rattle.helix_run.specs.Words.{order_of};
ghost use Rattle.helix_run.specs.Inner.Words.{names};
ghost use Rattle.helix_run.specs.Environment.{environment, IsQuiet, FollowsScript};
ghost use Rattle.helix_run.specs.Causes.{Cause, ProfileIsRefused, ProfileIsRead, OutputIsThere};
ghost use Rattle.helix_run.specs.Left.{Left, HoldsWhole, ShowsLine};
ghost use Rattle.helix_run.specs.Inner.Outcome.{Generates};

use crate::outcome::{Outcome, carry_out};
use crate::status::Status;
use crate::telling::tell;
use crate::words::read_words;
use helix_outside::{Console, Disk};
use std::alloc::Global;

/// Runs helix on the words of a command line.
///
/// The disk's files and the console's text are known as far as these tell them; what holds of faults holds always.
pub fn run<D: Disk, C: Console>(
    alloc: Global,
    words: &[String],
    disk: &mut D,
    console: &mut C,
) -> Status
    // The headline: where neither disk nor console fails, a run does what its script says.
    ensures script { let words = map string_bytes words.now in
        let before = environment (D.state disk.old) (C.screen console.old) in
        let after = environment (D.state disk.new) (C.screen console.new) in
        IsTrue before.disk.told → IsQuiet before after → result ≢ Status.WantOfMemory
        → FollowsScript words before result after }

    // Each status has its cause, and comes where that cause holds.
    ensures cause { Cause (map string_bytes words.now)
        (environment (D.state disk.old) (C.screen console.old)) result
        (environment (D.state disk.new) (C.screen console.new)) }
    ensures usage_comes { order_of (map string_bytes words.now) ≡ None → result ≢ Status.WantOfMemory
        → result ≡ Status.Usage }
    ensures refusal_comes { IsTrue (D.state disk.old).told
        → ProfileIsRefused (map string_bytes words.now) (D.state disk.old).files
        → result ≢ Status.ReadFault → result ≢ Status.WantOfMemory → result ≡ Status.ProfileRefused }

    // Where all is accepted and nothing fails, the rows are written.
    ensures completes { let words = map string_bytes words.now in
        let before = environment (D.state disk.old) (C.screen console.old) in
        let after = environment (D.state disk.new) (C.screen console.new) in
        IsTrue before.disk.told → ProfileIsRead words before.disk.files → ¬ OutputIsThere words before.disk
        → IsQuiet before after → result ≢ Status.WantOfMemory → result ≡ Status.Done }

    // What a run leaves, whatever failed. Nothing that was there is overwritten.
    ensures left { IsTrue (D.state disk.old).told
        → Left (map string_bytes words.now) (D.state disk.old).files result (D.state disk.new).files }
    ensures kept { IsTrue (D.state disk.old).told → (name bytes : List ℕ)
        → get (D.state disk.old).files name ≡ Some bytes → get (D.state disk.new).files name ≡ Some bytes }
    // Where only the console failed, the output is whole.
    ensures only_console { IsTrue (D.state disk.old).told → result ≡ Status.WriteFault
        → ¬ Rose (D.state disk.old).write_faults (D.state disk.new).write_faults
        → ¬ OutputIsThere (map string_bytes words.now) (D.state disk.old)
        → HoldsWhole (map string_bytes words.now) (D.state disk.old).files (D.state disk.new).files }
    ensures shown { IsTrue (C.screen console.old).told
        → ¬ Rose (C.screen console.old).faults (C.screen console.new).faults
        → ShowsLine (C.screen console.old) result (C.screen console.new) }
{
    let outcome = generate(alloc, words, disk);
    tell(console, outcome)
}

/// Does on the disk what the words say.
fn generate<D: Disk>(alloc: Global, words: &[String], disk: &mut D) -> Outcome
    ensures { Generates (map string_bytes words.now) (D.state disk.old) result (D.state disk.new) }
{
    match read_words(words) {
        Some(order) => carry_out(alloc, order, disk),
        None => Outcome::Usage,
    }
}
