//! Cores of profiles that contradict themselves.

ghost use Rattle.std.specs.Prelude.{◌≡◌, ◌↔◌, ◌⊎◌, IsTrue, Contains};

use crate::finding::numbers_to;
use crate::{Emptiness, core};
use helix_base::{Memory, Numbers32};
use std::alloc::Global;
use std::test::Fail;

/// A profile that two sets of three constraints empty, and so does each set that has one of these.
#[derive(Debug, Drop)]
struct Conflicts {
    count: u32,
    first: (u32, u32, u32),
    second: (u32, u32, u32),
    asked: u64,
}

impl Emptiness for Conflicts {
    ghost use Rattle.std.proofs.Common.{inl, inr};

    ghost count = { λ s. s.count };

    ghost Empties = { λ s keep. (Contains keep s.first.0 × Contains keep s.first.1 × Contains keep s.first.2)
        ⊎ (Contains keep s.second.0 × Contains keep s.second.1 × Contains keep s.second.2) };

    ghost asked = { λ s. s.asked };

    fn is_empty(&mut self, keep: &[u32]) -> Result<bool, Memory> {
        self.asked = self.asked.saturating_add(1);
        Ok(has_all(keep, self.first) || has_all(keep, self.second))
    }

    ghost closed = { λ s a b is_set has_set more both. elim both [
      | inl has ↦ inl (more s.first.0 has.0, more s.first.1 has.1, more s.first.2 has.2)
      | inr has ↦ inr (more s.second.0 has.0, more s.second.1 has.1, more s.second.2 has.2)
    ] };
}

/// Whether these three numbers are there.
fn has_all(keep: &[u32], numbers: (u32, u32, u32)) -> bool
    ensures { IsTrue result
        ↔ (Contains keep.now numbers.0 × Contains keep.now numbers.1 × Contains keep.now numbers.2) }
{
    keep.contains(&numbers.0) && keep.contains(&numbers.1) && keep.contains(&numbers.2)
}

/// The core of a profile, or None where the whole of it lets rows through.
#[tactic(auto, using(crate::proofs::Reversed::all_numbers))]
fn core_of(alloc: Global, conflicts: &mut Conflicts) -> Result<Option<Numbers32>, Memory> {
    let count = conflicts.count;
    let all = numbers_to(alloc, count)?;
    let empty = conflicts.is_empty(all.as_slice())?;
    if empty {
        Ok(Some(core(alloc, count, conflicts)?))
    } else {
        Ok(None)
    }
}

#[test]
fn finds_cores(rt: HostRuntime) -> Result<(), Fail> {
    let cases: [(u32, (u32, u32, u32), (u32, u32, u32), &[u32]); 7] = [
        (3, (1, 2, 3), (1, 2, 3), &[1, 2, 3]),
        (4, (1, 3, 3), (1, 4, 4), &[1, 3]),
        (5, (2, 2, 2), (5, 5, 5), &[2]),
        (4, (4, 4, 4), (1, 2, 3), &[1, 2, 3]),
        (6, (6, 2, 2), (6, 2, 2), &[2, 6]),
        (6, (1, 2, 6), (3, 4, 5), &[3, 4, 5]),
        (1, (1, 1, 1), (1, 1, 1), &[1]),
    ];
    for (count, first, second, want) in cases {
        let mut conflicts = Conflicts {
            count,
            first,
            second,
            asked: 0,
        };
        let found = core_of(rt.alloc(), &mut conflicts)?.ok_or("a row")?;
        assert!(rt; found.as_slice() == want);
        assert_eq!(rt; conflicts.asked, u64::from(count) + 1);
    }
    Ok(())
}
