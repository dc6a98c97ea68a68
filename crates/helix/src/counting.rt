//! Counts of faults, which stay at the last value of their type.

ghost use Rattle.std.specs.Prelude.{◌≡◌, ◌≤◌};
ghost use Rattle.helix_base.specs.Count.{raised};

use helix_outside::Failed;

/// Counts a fault.
pub fn fault(count: &mut u64) -> Failed
    ensures value { count.new ≡ raised count.old }
    ensures grows { count.old ≤ count.new }
{
    *count = count.saturating_add(1);
    Failed
}
