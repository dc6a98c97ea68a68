//! A set file that is wanted.

use helix_base::Text;
use helix_places::Place;
use helix_values::Kind;

/// A set file that is still to be read.
#[derive(Clone, Copy, Debug)]
pub struct Wanted<'a> {
    /// The name of the file.
    pub name: &'a Text,
    /// The kind of each member.
    pub kind: Kind,
    /// The place of the operand that names the file.
    pub place: &'a Place,
    /// The number of the mention in the order of the text, from 1.
    pub number: u64,
}
