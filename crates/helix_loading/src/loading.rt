//! Loading the profile of a run.

ghost use Rattle.std.specs.Prelude.{ℕ, List, IfSome, ◌≤◌};
ghost use Rattle.helix_loading.specs.Inner.Stages.{AreOfFile};
ghost use Rattle.helix_loading.specs.Loading.{Loads};

use crate::choosing::complete;
use crate::draft::drafted;
use crate::loaded::{LoadFault, Loaded};
use crate::set_files::{fill_sets, read_named};
use helix_base::{Alphabet, Text};
use helix_outside::Disk;
use std::alloc::Global;

/// Loads the profile of this file, in which the constraint of a number, from 1, may be violated.
pub fn load<D: Disk>(
    alloc: Global,
    disk: &mut D,
    name: &Text,
    alphabet: Alphabet,
    violate: Option<u64>,
) -> Result<Loaded, LoadFault>
    requires { IfSome violate (λ number. 1 ≤ number) }
    ensures { Loads (D.state disk.old) name.now alphabet violate result (D.state disk.new) }
{
    let bytes = read_named(alloc, disk, name)?;
    load_from(alloc, disk, alphabet, violate, bytes.as_slice())
}

/// The same, where the bytes of the file are read.
fn load_from<D: Disk>(
    alloc: Global,
    disk: &mut D,
    alphabet: Alphabet,
    violate: Option<u64>,
    bytes: &[u8],
) -> Result<Loaded, LoadFault>
    requires { IfSome violate (λ number. 1 ≤ number) }
    ensures { (name : List ℕ) → AreOfFile (D.state disk.old) name bytes.now
        → Loads (D.state disk.old) name alphabet violate result (D.state disk.new) }
{
    let mut draft = drafted(alloc, alphabet, bytes)?;
    let others = fill_sets(alloc, disk, &mut draft)?;
    complete(alloc, alphabet, violate, bytes, draft, others.as_slice())
}
