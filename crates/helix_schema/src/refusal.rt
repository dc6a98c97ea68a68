//! Why a profile is refused.

use helix_base::Text;
use helix_rules::Rule;

/// A place in the text of a profile.
#[derive(Debug, Drop)]
pub enum Location {
    /// The number of bytes before it.
    Byte(u64),
    /// The pointer of a value, as of RFC 6901, after `#`.
    Pointer(Text),
}

/// The first broken rule, and the first place where it is broken.
#[derive(Debug, Drop)]
pub struct Refusal {
    /// The rule.
    pub rule: Rule,
    /// The place.
    pub location: Location,
}
