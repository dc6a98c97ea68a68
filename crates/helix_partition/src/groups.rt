//! The groups of a profile.

ghost use Rattle.std.specs.Prelude.{◌≡◌, ◌<◌, ◌^◌, ◌==◌, ℕ, length, slice_index, IfOk};
ghost use Rattle.std.specs.List.{All};
ghost use Rattle.helix_partition.specs.Groups.{numbers_below, groups_of, IsPartition};
ghost use Rattle.helix_partition.specs.Inner.Labels.{labelled_group, labelled_groups};

use crate::labels::{Labels, labels_of};
use crate::partition::{Partition, Partitions};
use helix_base::{Memory, Numbers32};
use helix_profile::Profile;
use std::alloc::Global;

/// The groups of linked fields, each with its constraints, in the order of their least fields.
pub fn partitions(alloc: Global, profile: &Profile) -> Result<Partitions, Memory>
    ensures groups { IfOk result (λ partitions. partitions ≡ groups_of profile.now) }
    ensures partition { IfOk result (λ partitions. IsPartition profile.now partitions) }
{
    let found = labels_of(alloc, profile)?;
    groups(alloc, &found)
}

/// A group for each label that is its own.
fn groups(alloc: Global, found: &Labels) -> Result<Partitions, Memory>
    requires small { length found.now.labels.items < 2 ^ 32 }
    requires constraints { length found.now.firsts < 2 ^ 32 }
    requires firsts { All (λ first. first < length found.now.labels.items) found.now.firsts }
    ensures { IfOk result (λ groups. groups ≡ labelled_groups found.now.labels.items found.now.firsts) }
{
    let mut groups = Partitions::new(alloc);
    for (field, label) in found.labels.as_slice().iter().enumerate() {
        if *label == field as u32 {
            groups.push(group(alloc, found, *label)?)?;
        }
    }
    Ok(groups)
}

/// The fields with a label, and the constraints whose first field has it.
fn group(alloc: Global, found: &Labels, label: u32) -> Result<Partition, Memory>
    requires small { length found.now.labels.items < 2 ^ 32 }
    requires constraints { length found.now.firsts < 2 ^ 32 }
    requires firsts { All (λ first. first < length found.now.labels.items) found.now.firsts }
    ensures { IfOk result (λ group. group ≡ labelled_group found.now.labels.items found.now.firsts label) }
{
    let labels = found.labels.as_slice();
    Ok(Partition {
        fields: fields_with(alloc, labels, label)?,
        constraints: constraints_with(alloc, labels, found.firsts.as_slice(), label)?,
    })
}

fn fields_with(alloc: Global, labels: &[u32], label: u32) -> Result<Numbers32, Memory>
    requires { length labels.now < 2 ^ 32 }
    ensures { IfOk result (λ fields. fields
        ≡ numbers_below (λ field. slice_index labels.now field == label) (length labels.now)) }
{
    let mut fields = Numbers32::new(alloc);
    for (field, own) in labels.iter().enumerate() {
        if *own == label {
            fields.push(field as u32)?;
        }
    }
    Ok(fields)
}

fn constraints_with(
    alloc: Global,
    labels: &[u32],
    firsts: &[u32],
    label: u32,
) -> Result<Numbers32, Memory>
    requires small { length firsts.now < 2 ^ 32 }
    requires firsts { All (λ first. first < length labels.now) firsts.now }
    ensures { IfOk result (λ constraints. constraints
        ≡ numbers_below (λ number. slice_index labels.now (slice_index firsts.now number) == label)
        (length firsts.now)) }
{
    let mut constraints = Numbers32::new(alloc);
    for (number, first) in firsts.iter().enumerate() {
        if labels[*first as usize] == label {
            constraints.push(number as u32)?;
        }
    }
    Ok(constraints)
}
