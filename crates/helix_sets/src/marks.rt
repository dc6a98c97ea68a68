//! The marks at the beginning of a file.

ghost use Rattle.std.specs.Prelude.{◌≡◌};
ghost use Rattle.helix_sets.specs.SetFiles.{without_marks};

/// The bytes after the marks EF BB BF at the beginning.
pub fn after_marks(bytes: &[u8]) -> &[u8]
    ensures { result.now ≡ without_marks bytes.now }
{
    let mut rest = bytes;
    while let [0xEF, 0xBB, 0xBF, after @ ..] = rest {
        rest = after;
    }
    rest
}
