//! The tokens of JSON text.

use helix_base::Text;

/// A token of JSON text: a structural character, a literal name, a number as it is written, or a
/// string with its escapes resolved.
#[derive(Debug, Drop)]
pub enum Token {
    OpenList,
    CloseList,
    OpenObject,
    CloseObject,
    Comma,
    Colon,
    Null,
    True,
    False,
    Number(Text),
    Str(Text),
}
