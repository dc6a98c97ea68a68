//! The negation of one constraint in its place.

ghost use Rattle.std.specs.Prelude.{◌≡◌, ◌≤◌, ◌<◌, ◌⊎◌, length, Ok, Err, IfOk, OnOk, OnErr};
ghost use Rattle.helix_profile.specs.Violation.{violating};
ghost use Rattle.helix_profile.specs.declared.constraint.Constraint.TheViews.{Not};

use crate::fault::ViolateFault;
use helix_base::Memory;
use helix_profile::{Constraint, Profile};
use sqlite_items::Boxed;
use std::alloc::Global;

/// Replaces a constraint, which is counted from 1, by `not` of it.
pub fn violate(alloc: Global, profile: &mut Profile, k: usize) -> Result<(), ViolateFault>
    ensures violated { OnOk result (profile.new ≡ violating profile.old k) }
    ensures unchanged { OnErr result (profile.new ≡ profile.old) }
    ensures refused { (k ≡ 0) ⊎ (length profile.old.constraints < k)
        → result ≡ Err (ViolateFault.NoSuchConstraint (length profile.old.constraints)) }
    ensures listed { 1 ≤ k → k ≤ length profile.old.constraints
        → (result ≡ Ok tt) ⊎ (result ≡ Err ViolateFault.Memory) }
{
    let constraints = profile.constraints();
    let count = constraints.len();
    if k == 0 || count < k {
        return Err(ViolateFault::NoSuchConstraint {
            count: count as u32,
        });
    }
    let negation = negation(alloc, &constraints[k - 1])?;
    match profile.replace_constraint(k, negation) {
        Ok(_) => Ok(()),
        Err(none) => Err(ViolateFault::NoSuchConstraint { count: none.count }),
    }
}

fn negation(alloc: Global, constraint: &Constraint) -> Result<Constraint, Memory>
    ensures { IfOk result (λ negation. negation ≡ Not constraint.now) }
{
    Ok(Constraint::Not(Boxed::new(alloc, constraint.copy(alloc)?)?))
}
