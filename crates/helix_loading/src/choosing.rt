//! The profile of a run, once its set files are read, and the identity of the run.

ghost use Rattle.std.specs.Prelude.{◌≡◌, ◌≤◌, length, IfErr, IfOk, IfSome, Some};
ghost use Rattle.helix_loading.specs.Inner.Stages.{Completes, IsChosen, IsLoadedOf, IsNumberStop, StopsDrafted, StopsNumber};

use crate::loaded::{LoadFault, Loaded};
use crate::mode::mode_line;
use helix_base::{Alphabet, Bytes};
use helix_places::word_text;
use helix_profile::Profile;
use helix_rules::Rule;
use helix_schema::{Draft, Location, Refusal};
use helix_token::identity;
use helix_violate::{ViolateFault, violate as violate_in};
use std::alloc::Global;

/// The profile of a draft whose set files are all read, in which the constraint of a number may be violated, and the
/// identity of the run.
pub fn complete(
    alloc: Global,
    alphabet: Alphabet,
    violate: Option<u64>,
    bytes: &[u8],
    draft: Draft,
    others: &[Bytes],
) -> Result<Loaded, LoadFault>
    requires { IfSome violate (λ number. 1 ≤ number) }
    ensures ok { IfOk result (Completes draft alphabet violate bytes.now others.now) }
    ensures err { IfErr result (StopsDrafted draft violate) }
{
    match draft.finish(alloc) {
        Ok(profile) => choose(alloc, alphabet, violate, bytes, profile, others),
        Err(_) => Err(LoadFault::Memory),
    }
}

/// The same for a profile.
fn choose(
    alloc: Global,
    alphabet: Alphabet,
    violate: Option<u64>,
    bytes: &[u8],
    profile: Profile,
    others: &[Bytes],
) -> Result<Loaded, LoadFault>
    requires { IfSome violate (λ number. 1 ≤ number) }
    ensures ok { IfOk result (IsLoadedOf profile alphabet violate bytes.now others.now) }
    ensures err { IfErr result (StopsNumber profile violate) }
{
    let mode = mode_line(alloc, violate, alphabet)?;
    let identity = identity(bytes, mode.as_slice(), others);
    let profile = profile_for(alloc, profile, violate)?;
    Ok(Loaded { profile, identity })
}

/// The profile in which the constraint of a number may be violated.
fn profile_for(alloc: Global, profile: Profile, violate: Option<u64>) -> Result<Profile, LoadFault>
    requires { IfSome violate (λ number. 1 ≤ number) }
    ensures ok { IfOk result (IsChosen profile violate) }
    ensures err { IfErr result (StopsNumber profile violate) }
{
    match violate {
        Some(number) => violated(alloc, profile, number),
        None => Ok(profile),
    }
}

/// The profile in which the constraint of a number is violated.
fn violated(alloc: Global, mut profile: Profile, number: u64) -> Result<Profile, LoadFault>
    requires { 1 ≤ number }
    ensures ok { IfOk result (IsChosen profile (Some number)) }
    ensures err { IfErr result (StopsNumber profile (Some number)) }
{
    match violate_in(alloc, &mut profile, number as usize) {
        Ok(_) => Ok(profile),
        Err(ViolateFault::NoSuchConstraint { .. }) => Err(number_stop(alloc)),
        Err(ViolateFault::Memory) => Err(LoadFault::Memory),
    }
}

/// The refusal of a number.
fn number_stop(alloc: Global) -> LoadFault
    ensures { IsNumberStop result }
{
    match word_text(alloc, "#/constraints") {
        Ok(pointer) => LoadFault::Refused(Refusal {
            rule: Rule::S23,
            location: Location::Pointer(pointer),
        }),
        Err(_) => LoadFault::Memory,
    }
}
