//! The identity of a run.

ghost use Rattle.std.specs.Prelude.{◌≡◌, ℕ, ◌++◌, List};
ghost use Rattle.sha2.specs.Hashers.{Holds256};
ghost use Rattle.helix_token.specs.Identity.{identity_of, measured};

use helix_base::Bytes;
use sha2::{Digest, Sha256};

/// The identity of a run: the digest of the profile's bytes, the mode line and the set files in the order of their
/// mentions. It takes no memory. No clause says what it costs: one pass over the bytes.
pub fn identity(profile: &[u8], mode: &[u8], files: &[Bytes]) -> [u8; 32]
    ensures { result ≡ identity_of profile.now mode.now files.now }
{
    let mut hasher = Sha256::new();
    add_piece(&mut hasher, profile);
    add_piece(&mut hasher, mode);
    for file in files {
        add_piece(&mut hasher, file.as_slice());
    }
    hasher.finalize()
}

/// Adds a piece, after its length in eight bytes with the highest first.
fn add_piece(hasher: &mut Sha256, piece: &[u8])
    ensures { (held : List ℕ) → Holds256 hasher.old held → Holds256 hasher.new (held ++ measured piece.now) }
{
    let length = (piece.len() as u64).to_be_bytes();
    hasher.update(length);
    hasher.update(piece);
}
