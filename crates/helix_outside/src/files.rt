//! Files in memory.

ghost use Rattle.std.specs.Prelude.{◌≡◌, OnOk, OnErr, option_copied};
ghost use Rattle.std.specs.FinMap.{empty, get, insert};
ghost use Rattle.helix_outside.specs.Entries.{files_of};
ghost use Rattle.helix_outside.specs.Files.{appended};

use crate::entries;
use crate::entries::Entry;
use helix_base::Memory;
use std::alloc::Global;
use std::marker::Model;

/// Files in memory, that contracts see as a finite map from names to bytes. A name is the UTF-8 of its text.
#[derive(Debug, Drop)]
pub struct Files {
    entries: Vec<Entry>,
}

impl Model for Files {
    ghost use Rattle.std.specs.FinMap as map;
    ghost use Rattle.std.specs.Coded.{coded_list, coded_ℕ};
    ghost use Rattle.helix_outside.specs.Files.{FileMap};

    ghost Value = { FileMap };

    ghost coded = { map.code (coded_list coded_ℕ) (coded_list coded_ℕ) };

    ghost use Rattle.helix_outside.specs.Entries.{files_of};

    ghost view = { λ files. files_of files.entries.items };
}

impl Files {
    /// No files yet.
    pub fn new(alloc: Global) -> Files
        ensures { result ≡ empty }
    {
        Files {
            entries: Vec::new(alloc),
        }
    }

    /// Sets the bytes of one name.
    pub fn put(&mut self, name: &str, bytes: &[u8]) -> Result<(), Memory>
        ensures ok { OnOk result (self.new ≡ insert self.old name.now bytes.now) }
        ensures err { OnErr result (self.new ≡ self.old) }
    {
        self.set(name.as_bytes(), bytes)
    }

    /// Sets the bytes of one name, given as its UTF-8.
    pub(crate) fn set(&mut self, name: &[u8], bytes: &[u8]) -> Result<(), Memory>
        ensures ok { OnOk result (self.new ≡ insert self.old name.now bytes.now) }
        ensures err { OnErr result (self.new ≡ self.old) }
    {
        let bytes = Vec::from_slice(*self.entries.allocator(), bytes)?;
        entries::set(&mut self.entries, name, bytes)
    }

    /// What the file of this name holds, or `None` where there is none.
    pub(crate) fn get(&self, name: &[u8]) -> Option<&[u8]>
        ensures { option_copied result ≡ get self.now name.now }
    {
        entries::bytes_of(self.entries.as_slice(), name)
    }

    /// Appends bytes to those of one name.
    pub(crate) fn append(&mut self, name: &[u8], bytes: &[u8]) -> Result<(), Memory>
        ensures ok { OnOk result (self.new ≡ appended self.old name.now bytes.now) }
        ensures err { OnErr result (self.new ≡ self.old) }
    {
        entries::append(&mut self.entries, name, bytes)
    }

    /// The entries, of which the first one with a name counts.
    pub(crate) fn into_entries(self) -> Vec<Entry>
        ensures { files_of result.items ≡ self }
    {
        self.entries
    }

    /// The allocator of the files.
    pub(crate) fn allocator(&self) -> Global {
        *self.entries.allocator()
    }
}
