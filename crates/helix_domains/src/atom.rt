//! Atoms with a sign.

ghost use Rattle.std.specs.Prelude.{◌≡◌, IfOk};

use helix_base::{List, Memory, TryCopy};
use helix_profile::Atom;
use std::alloc::Global;

/// An atom, or with a false sign its negation.
#[derive(Debug, Drop)]
pub struct SignedAtom {
    pub atom: Atom,
    pub sign: bool,
}

/// Signed atoms, which a value passes all.
pub type SignedAtoms = List<SignedAtom>;

impl SignedAtom {
    pub fn copy(&self, alloc: Global) -> Result<SignedAtom, Memory>
        ensures { IfOk result (λ copy. copy ≡ self.now) }
    {
        Ok(SignedAtom {
            atom: self.atom.copy(alloc)?,
            sign: self.sign,
        })
    }
}

impl TryCopy for SignedAtom {
    fn try_copy(&self, alloc: Global) -> Result<SignedAtom, Memory> {
        self.copy(alloc)
    }
}

/// The same signed atoms.
pub fn copy_atoms(alloc: Global, atoms: &[SignedAtom]) -> Result<SignedAtoms, Memory>
    ensures { IfOk result (λ copies. copies ≡ atoms.now) }
{
    let mut copies = SignedAtoms::new(alloc);
    for signed in atoms {
        copies.push(signed.copy(alloc)?)?;
    }
    Ok(copies)
}
