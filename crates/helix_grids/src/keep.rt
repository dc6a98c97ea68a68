//! The values of lists that stay, in order.

ghost use Rattle.std.specs.Prelude.{ℤ, ◌≡◌, ◌↔◌, ◌++◌, IfOk};
ghost use Rattle.std.specs.List.{Contains};
ghost use Rattle.helix_grids.specs.Inner.Kept.{AreKept};
ghost use Rattle.helix_grids.specs.Inner.Sieve.{AreAscending, IsSifted};
ghost use Rattle.helix_grids.specs.Inner.Window.{IsWindowOf};

use crate::search::is_listed;
use crate::sieve::is_sifted;
use crate::window::Window;
use helix_base::Memory;
use helix_ladders::Scale;
use std::alloc::Global;

/// The values of a list that lie in a window and aren't excluded.
pub fn sifted<S: Scale>(
    alloc: Global,
    scale: &S,
    window: Window,
    excluded: &[i128],
    values: &[i128],
) -> Result<Vec<i128>, Memory>
    requires window { IsWindowOf (S.ladder scale.now) window }
    requires ascending { AreAscending excluded.now }
    ensures { IfOk result (λ kept. AreKept (IsSifted (S.ladder scale.now) window excluded.now) values.now kept.items) }
{
    let mut kept = Vec::new(alloc);
    for value in values {
        if is_sifted(scale, window, excluded, *value) {
            kept.push(*value)?;
        }
    }
    Ok(kept)
}

/// The values of a list that an ascending list has too.
pub fn common(alloc: Global, members: &[i128], values: &[i128]) -> Result<Vec<i128>, Memory>
    requires { AreAscending members.now }
    ensures { IfOk result (λ kept. AreKept (Contains members.now) values.now kept.items) }
{
    let mut kept = Vec::new(alloc);
    for value in values {
        if is_listed(members, *value) {
            kept.push(*value)?;
        }
    }
    Ok(kept)
}

/// The values of two lists in ascending order.
pub fn sorted(alloc: Global, values: &[i128], others: &[i128]) -> Result<Vec<i128>, Memory>
    ensures ascending { IfOk result (λ all. AreAscending all.items) }
    ensures exact { IfOk result (λ all. (v : ℤ) → Contains all.items v ↔ Contains (values.now ++ others.now) v) }
{
    let mut all = Vec::from_slice(alloc, values)?;
    all.extend_from_slice(others)?;
    all.sort()?;
    Ok(all)
}
