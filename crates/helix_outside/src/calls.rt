//! A list of call numbers.

use helix_base::List;

/// Numbers of calls, from 1.
pub type Calls = List<u64>;
