//! The least field that each field is linked with.

ghost use Rattle.std.specs.Prelude.{◌≡◌, ◌≤◌, ◌<◌, ℕ, length, slice_index, IfOk, OnOk};
ghost use Rattle.std.specs.List.{All, range_with_len};
ghost use Rattle.helix_profile.specs.Fields.{fields_of};
ghost use Rattle.helix_profile.specs.Validity.{IsValidProfile};
ghost use Rattle.helix_partition.specs.Inner.Labels.{first_fields, JoinsUpTo, LabelledBy};

use crate::join::join_all;
use crate::named::named_fields;
use helix_base::{Memory, Numbers32};
use helix_profile::{Constraint, Profile};
use std::alloc::Global;

/// The least linked field of each field, and the first field that each constraint names.
#[derive(Debug, Drop)]
pub struct Labels {
    pub labels: Vec<u32>,
    pub firsts: Numbers32,
}

/// The labels of all fields by all constraints.
pub fn labels_of(alloc: Global, profile: &Profile) -> Result<Labels, Memory>
    ensures valid { IsValidProfile profile.now }
    ensures firsts { IfOk result (λ found. found.firsts ≡ first_fields profile.now.constraints) }
    ensures labels { IfOk result (λ found. LabelledBy profile.now found.labels.items profile.now.constraints) }
{
    let fields = profile.fields();
    let constraints = profile.constraints();
    let mut labels = own_labels(alloc, fields.len())?;
    let mut firsts = Numbers32::new(alloc);
    for constraint in constraints {
        let first = join_named(alloc, labels.as_mut_slice(), constraint)?;
        firsts.push(first)?;
    }
    Ok(Labels { labels, firsts })
}

/// Joins the fields that a constraint names, and answers the first of them.
fn join_named(alloc: Global, labels: &mut [u32], constraint: &Constraint) -> Result<u32, Memory>
    requires named { 1 ≤ length (fields_of constraint.now) }
    requires there { All (λ field. field < length labels.old) (fields_of constraint.now) }
    ensures first { IfOk result (λ first. first ≡ slice_index (fields_of constraint.now) 0) }
    ensures joined { OnOk result
        (JoinsUpTo labels.old labels.new (fields_of constraint.now) (length (fields_of constraint.now))) }
{
    let named = named_fields(alloc, constraint)?;
    let fields = named.as_slice();
    join_all(labels, fields);
    Ok(fields[0])
}

/// Each number below a limit, in order.
fn own_labels(alloc: Global, count: usize) -> Result<Vec<u32>, Memory>
    requires { count ≤ 64 }
    ensures { IfOk result (λ labels. labels.items ≡ range_with_len 0 count) }
{
    let mut labels = Vec::new(alloc);
    for field in 0..count {
        labels.push(field as u32)?;
    }
    Ok(labels)
}
