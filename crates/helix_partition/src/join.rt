//! Labels of fields: fields that are joined have one label, the least of them.

ghost use Rattle.std.specs.Prelude.{◌≡◌, ◌<◌, ◌==◌, if◌then◌else◌, ℕ, length};
ghost use Rattle.std.specs.List.{All};
ghost use Rattle.helix_partition.specs.Inner.Labels.{with_label, relabelled, JoinsUpTo};

/// Gives the fields of a list one label, and with them all fields that have one of their labels.
pub fn join_all(labels: &mut [u32], fields: &[u32])
    requires { All (λ field. field < length labels.old) fields.now }
    ensures { JoinsUpTo labels.old labels.new fields.now (length fields.now) }
{
    for field in fields {
        join(labels, fields[0] as usize, *field as usize);
    }
}

/// Gives two fields one label, and with them all fields that have one of their labels.
fn join(labels: &mut [u32], a: usize, b: usize)
    requires first { a < length labels.old }
    requires second { b < length labels.old }
    ensures { labels.new ≡ relabelled labels.old a b }
{
    let low = labels[a].min(labels[b]);
    let high = labels[a].max(labels[b]);
    replace_label(labels, high, low);
}

fn replace_label(labels: &mut [u32], old: u32, new: u32)
    ensures { labels.new ≡ with_label labels.old old new }
{
    for label in labels.iter_mut() {
        *label = replaced(*label, old, new);
    }
}

fn replaced(label: u32, old: u32, new: u32) -> u32
    ensures { result ≡ (if label == old then new else label) }
{
    if label == old { new } else { label }
}
