//! Counters of calls and of faults, and the calls that are to fail.

ghost use Rattle.std.specs.Prelude.{◌≡◌, ◌+◌, ◌≤◌, ◌↔◌, Contains, IsTrue};
ghost use Rattle.helix_base.specs.Count.{raised};

use crate::disk::Failed;

/// Counts one more call, and answers whether its number is among those that fail.
pub(crate) fn next_call(failing: &[u64], calls: &mut u64) -> bool
    ensures counted { calls.new ≡ raised calls.old }
    ensures listed { IsTrue result ↔ Contains failing.now (raised calls.old) }
{
    *calls = calls.saturating_add(1);
    failing.contains(calls)
}

/// Counts a fault.
pub(crate) fn fault(count: &mut u64) -> Failed
    ensures value { count.new ≡ raised count.old }
    ensures grows { count.old ≤ count.new }
    ensures one { count.new ≤ count.old + 1 }
{
    *count = count.saturating_add(1);
    Failed
}
