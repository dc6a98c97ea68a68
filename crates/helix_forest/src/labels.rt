//! A label for each field: fields of one tree have one label.

ghost use Rattle.std.specs.Prelude.{◌≡◌, IfOk};
ghost use Rattle.helix_forest.specs.Inner.Trees.{AreOwn, IsRelabelled, other_label};

use helix_base::Memory;
use std::alloc::Global;

/// A label of its own for each field.
pub fn own_labels(alloc: Global, fields: u32) -> Result<Vec<u32>, Memory>
    ensures { IfOk result (λ labels. AreOwn labels.items fields) }
{
    let mut labels = Vec::new(alloc);
    for field in 0..fields {
        labels.push(field)?;
    }
    Ok(labels)
}

/// Gives another label to the fields that have one.
pub fn replace_label(labels: &mut [u32], old: u32, new: u32)
    ensures { IsRelabelled old new labels.old labels.new }
{
    for label in labels.iter_mut() {
        *label = replaced(*label, old, new);
    }
}

fn replaced(label: u32, old: u32, new: u32) -> u32
    ensures { result ≡ other_label old new label }
{
    if label == old { new } else { label }
}
