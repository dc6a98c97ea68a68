//! Laws of parts, each the contract of a function that does nothing.

ghost use Rattle.helix_options.specs.Parts.{IsPartOf};
ghost use Rattle.helix_partition.specs.Groups.{IsGroup};
ghost use Rattle.helix_partition.specs.declared.partition.Partition.{Partition};
ghost use Rattle.helix_profile.specs.Content.{Content};

/// A group of linked fields is a part.
pub fn a_group_is_a_part()
    ensures { (profile : Content) (group : Partition) → IsGroup profile group → IsPartOf profile group }
{}
