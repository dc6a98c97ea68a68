//! A list of names with their bytes, as files.

ghost use Rattle.std.specs.Prelude.{◌≡◌, None, OnOk, OnErr, IfSome, IfNone, option_copied};
ghost use Rattle.std.specs.FinMap.{get, insert};
ghost use Rattle.helix_outside.specs.Files.{content, appended};
ghost use Rattle.helix_outside.specs.Entries.{files_of, bytes_at, IsIndex};

use helix_base::Memory;

/// One file.
#[derive(Debug, Drop)]
pub(crate) struct Entry {
    pub(crate) name: Vec<u8>,
    pub(crate) bytes: Vec<u8>,
}

/// The index of the first entry with this name.
fn index_of(entries: &[Entry], name: &[u8]) -> Option<usize>
    ensures found { IfSome result (IsIndex entries.now name.now) }
    ensures missing { IfNone result (get (files_of entries.now) name.now ≡ None) }
{
    for (i, entry) in entries.iter().enumerate() {
        if entry.name.as_slice() == name {
            return Some(i);
        }
    }
    None
}

/// What the file of this name holds, or `None` where there is none.
pub(crate) fn bytes_of<'a>(entries: &'a [Entry], name: &[u8]) -> Option<&'a [u8]>
    ensures { option_copied result ≡ get (files_of entries.now) name.now }
{
    match index_of(entries, name) {
        Some(index) => Some(entries[index].bytes.as_slice()),
        None => None,
    }
}

/// The index of the file of this name, or the end where there is none.
pub(crate) fn index_or_end(entries: &[Entry], name: &[u8]) -> usize
    ensures { bytes_at entries.now result ≡ content (files_of entries.now) name.now }
{
    match index_of(entries, name) {
        Some(index) => index,
        None => entries.len(),
    }
}

/// What the file at this index holds, and nothing past the end.
pub(crate) fn bytes_at(entries: &[Entry], index: usize) -> &[u8]
    ensures { result.now ≡ bytes_at entries.now index }
{
    if index < entries.len() {
        entries[index].bytes.as_slice()
    } else {
        &[]
    }
}

/// Adds a file whose name is new.
fn add(entries: &mut Vec<Entry>, name: &[u8], bytes: Vec<u8>) -> Result<(), Memory>
    requires { get (files_of entries.old.items) name.now ≡ None }
    ensures ok { OnOk result (files_of entries.new.items ≡ insert (files_of entries.old.items) name.now bytes.items) }
    ensures err { OnErr result (files_of entries.new.items ≡ files_of entries.old.items) }
{
    let name = Vec::from_slice(*entries.allocator(), name)?;
    entries.push(Entry { name, bytes })?;
    Ok(())
}

/// Sets the bytes of one name.
pub(crate) fn set(entries: &mut Vec<Entry>, name: &[u8], bytes: Vec<u8>) -> Result<(), Memory>
    ensures ok { OnOk result (files_of entries.new.items ≡ insert (files_of entries.old.items) name.now bytes.items) }
    ensures err { OnErr result (files_of entries.new.items ≡ files_of entries.old.items) }
{
    match index_of(entries.as_slice(), name) {
        Some(index) => {
            entries[index].bytes = bytes;
            Ok(())
        }
        None => add(entries, name, bytes),
    }
}

/// Appends bytes to those of one name, and a file where there is none.
pub(crate) fn append(entries: &mut Vec<Entry>, name: &[u8], bytes: &[u8]) -> Result<(), Memory>
    ensures ok { OnOk result (files_of entries.new.items ≡ appended (files_of entries.old.items) name.now bytes.now) }
    ensures err { OnErr result (files_of entries.new.items ≡ files_of entries.old.items) }
{
    if bytes.is_empty() {
        return Ok(());
    }
    match index_of(entries.as_slice(), name) {
        Some(index) => {
            let entry = &mut entries[index];
            entry.bytes.extend_from_slice(bytes)?;
            Ok(())
        }
        None => {
            let bytes = Vec::from_slice(*entries.allocator(), bytes)?;
            add(entries, name, bytes)
        }
    }
}
