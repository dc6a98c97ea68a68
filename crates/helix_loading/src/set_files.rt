//! The set files that a profile mentions.

ghost use Rattle.std.specs.Prelude.{◌≡◌, ◌≤◌, IfErr, IfOk, OnOk};
ghost use Rattle.helix_sets.specs.SetFiles.{ReadsSet};
ghost use Rattle.helix_loading.specs.Inner.Stages.{AreOfFile, IsFaultStop, IsSetStop, IsUnread, ReadsAll, ReadsMention, SameFiles, StopsFile, StopsMembers, StopsMention, StopsSets};
ghost use Rattle.helix_loading.specs.Files.{OnlyReads};

use crate::loaded::LoadFault;
use crate::reading::{ReadError, read_file};
use helix_base::{Bytes, List, Text};
use helix_outside::Disk;
use helix_places::{Place, pointer_of};
use helix_rules::Rule;
use helix_schema::{Draft, Location, Refusal};
use helix_sets::{SetFault, members};
use helix_values::{Cells, Kind};
use std::alloc::Global;

/// Maximum number of mentions of set files.
const MOST_FILES: usize = 100;

/// The bytes of set files, in the order of their mentions.
pub type Files = List<Bytes>;

/// A set file.
#[derive(Drop)]
pub struct SetFile {
    /// Its bytes.
    pub bytes: Bytes,
    /// Its members.
    pub members: Cells,
}

/// Reads the set files of a draft of which nothing is read, and fills it with their members.
pub fn fill_sets<D: Disk>(
    alloc: Global,
    disk: &mut D,
    draft: &mut Draft,
) -> Result<Files, LoadFault>
    requires { IsUnread draft.old }
    ensures only_reads { OnlyReads (D.state disk.old) (D.state disk.new) }
    ensures same { OnOk result (SameFiles (D.state disk.old) (D.state disk.new)) }
    ensures ok { IfOk result (λ others. ReadsAll (D.state disk.old) draft.old draft.new others) }
    ensures err { IfErr result (λ stop. StopsSets (D.state disk.old) draft.old stop (D.state disk.new)) }
{
    let mut others = List::new(alloc);
    while let Some(wanted) = draft.next_wanted() {
        let file = read_set(
            alloc,
            disk,
            wanted.name,
            wanted.kind,
            wanted.place,
            others.as_slice().len(),
        )?;
        let SetFile { bytes, members } = file;
        draft.fill(members);
        others.push(bytes)?;
    }
    Ok(others)
}

/// Reads the set file of a mention that comes after `count` others.
fn read_set<D: Disk>(
    alloc: Global,
    disk: &mut D,
    name: &Text,
    kind: Kind,
    place: &Place,
    count: usize,
) -> Result<SetFile, LoadFault>
    requires { count ≤ 100 }
    ensures only_reads { OnlyReads (D.state disk.old) (D.state disk.new) }
    ensures same { OnOk result (SameFiles (D.state disk.old) (D.state disk.new)) }
    ensures ok { IfOk result (λ file. ReadsMention (D.state disk.old)
        (record { name = name.now; kind = kind; place = place.now }) count file.bytes file.members) }
    ensures err { IfErr result (λ stop. StopsMention (D.state disk.old)
        (record { name = name.now; kind = kind; place = place.now }) count stop (D.state disk.new)) }
{
    if count == MOST_FILES {
        return Err(set_stop(alloc, place));
    }
    let bytes = read_named(alloc, disk, name)?;
    list_set(alloc, kind, place, bytes)
}

/// The whole file of a name.
pub fn read_named<D: Disk>(alloc: Global, disk: &mut D, name: &Text) -> Result<Vec<u8>, LoadFault>
    ensures only_reads { OnlyReads (D.state disk.old) (D.state disk.new) }
    ensures same { OnOk result (SameFiles (D.state disk.old) (D.state disk.new)) }
    ensures ok { IfOk result (λ bytes. AreOfFile (D.state disk.old) name.now bytes.items) }
    ensures err { IfErr result (λ stop. StopsFile (D.state disk.old) name.now stop (D.state disk.new)) }
{
    let written = name.written(alloc)?;
    match read_file(alloc, disk, written.as_str()) {
        Ok(bytes) => Ok(bytes),
        Err(ReadError::Fault) => Err(LoadFault::Read),
        Err(ReadError::Memory) => Err(LoadFault::Memory),
    }
}

/// The set that the bytes of a file list.
fn list_set(alloc: Global, kind: Kind, place: &Place, bytes: Vec<u8>) -> Result<SetFile, LoadFault>
    ensures bytes { IfOk result (λ file. file.bytes ≡ bytes.items) }
    ensures ok { IfOk result (λ file. ReadsSet kind bytes.items file.members) }
    ensures err { IfErr result (λ stop. (name : _)
        → StopsMembers (record { name = name; kind = kind; place = place.now }) bytes.items stop) }
{
    match members(alloc, kind, bytes.as_slice()) {
        Ok(members) => Ok(SetFile {
            bytes: List::from_vec(bytes),
            members,
        }),
        Err(fault) => Err(fault_stop(alloc, place, fault)),
    }
}

/// What is answered where bytes are no set.
fn fault_stop(alloc: Global, place: &Place, fault: SetFault) -> LoadFault
    ensures { IsFaultStop place.now fault result }
{
    match fault {
        SetFault::Memory => LoadFault::Memory,
        _ => set_stop(alloc, place),
    }
}

/// The refusal of a set file.
fn set_stop(alloc: Global, place: &Place) -> LoadFault
    ensures { IsSetStop place.now result }
{
    match pointer_of(alloc, place) {
        Ok(pointer) => LoadFault::Refused(Refusal {
            rule: Rule::S22,
            location: Location::Pointer(pointer),
        }),
        Err(_) => LoadFault::Memory,
    }
}
