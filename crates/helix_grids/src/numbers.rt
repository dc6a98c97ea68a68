//! A list of numbers.

use helix_base::List;

/// Numbers, as the members of a set.
pub type Numbers = List<i128>;
