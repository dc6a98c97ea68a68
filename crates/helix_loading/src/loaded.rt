//! What loading a profile gives.

use helix_base::Memory;
use helix_profile::Profile;
use helix_schema::Refusal;

/// The profile of a run.
#[derive(Drop)]
pub struct Loaded {
    /// The profile, in which a constraint may be violated.
    pub profile: Profile,
    /// The identity of the run.
    pub identity: [u8; 32],
}

/// Why no profile was loaded.
#[derive(Debug, Drop)]
pub enum LoadFault {
    /// The disk failed, or a file that is to be read isn't there.
    Read,
    /// A rule is broken: this is the first one.
    Refused(Refusal),
    /// An allocation failed.
    Memory,
}

impl From<Memory> for LoadFault {
    ghost use Rattle.std.specs.Prelude.{◌≡◌};
    ghost use Rattle.helix_loading.specs.declared.loaded.LoadFault.TheVariants.{Memory as NoMemory};

    ghost from_gives = { λ _ fault. fault ≡ NoMemory };

    fn from(_memory: Memory) -> LoadFault {
        LoadFault::Memory
    }
}
