//! Tokens, read.

ghost use Rattle.std.specs.Prelude.{◌≢◌, IfErr, IfOk};
ghost use Rattle.helix_token.specs.Broken.{IsFirstFault};
ghost use Rattle.helix_token.specs.Token.{IsTokenOf};
ghost use Rattle.helix_token.specs.declared.fault.TokenFault.{TokenFault as Fault};
ghost use Rattle.helix_token.specs.declared.fault.TokenFault.TheVariants as faults;

use crate::cells::row_of;
use crate::fault::TokenFault;
use crate::form::parts_of;
use helix_profile::Field;
use helix_values::Row;
use std::alloc::Global;

/// The row of a token: of exactly the text that [`write_token`](crate::write_token) gives, alone or with one line feed.
/// No clause says what it costs: time and memory in proportion to the bytes, of which more than 1,048,576 are refused
/// unread.
pub fn read_token(
    alloc: Global,
    bytes: &[u8],
    identity: &[u8; 32],
    fields: &[Field],
) -> Result<Row, TokenFault>
    ensures row { IfOk result (λ row. IsTokenOf bytes.now identity.now fields.now row) }
    ensures whole { IfOk result (λ _. (fault : Fault) → ¬ IsFirstFault bytes.now identity.now fields.now fault) }
    ensures fault { IfErr result
        (λ fault. fault ≢ faults.Memory → IsFirstFault bytes.now identity.now fields.now fault) }
{
    let Some(parts) = parts_of(alloc, bytes)? else {
        return Err(TokenFault::Form);
    };
    if parts.identity != *identity {
        return Err(TokenFault::OtherProfile {
            found: parts.identity,
            wanted: *identity,
        });
    }
    row_of(alloc, fields, parts.strings.as_slice())
}
