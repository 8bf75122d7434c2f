//! The files of a host in memory, by their paths.
ghost use Rattle.std.specs.Prelude.{◌≡◌, [], Some, option_map, OnOk, OnErr};
ghost use Rattle.std.specs.Option.{option_copied};
ghost use Rattle.link_core.specs.Host.{file_at, files_with, files_without};

use base_core::Bytes;
use std::alloc::{AllocError, Global};
use std::collections::BTreeMap;
use std::marker::Model;

// Files by their paths, seen as the list of paths and bytes.
#[derive(Drop)]
pub(crate) struct Files {
    alloc: Global,
    entries: BTreeMap<String, Bytes>,
}

impl Model for Files {
    ghost use Rattle.std.specs.Prelude.{List, ℕ};
    ghost use Rattle.link_core.specs.Paths.{files_in};

    ghost Value = { List (List ℕ × List ℕ) };

    ghost view = { λ files. files_in files.entries.entries };
}

impl Files {
    // No files.
    pub(crate) fn new(alloc: Global) -> Files
        ensures { result ≡ [] }
    {
        Files {
            alloc,
            entries: BTreeMap::new(alloc),
        }
    }

    // Puts a file at the path, in place of one that is there.
    pub(crate) fn put(&mut self, path: &str, bytes: Bytes) -> Result<(), AllocError>
        ensures ok { OnOk result (file_at path.now self.new ≡ Some bytes) }
        ensures files { OnOk result (self.new ≡ files_with path.now bytes self.old) }
        ensures err { OnErr result (self.new ≡ self.old) }
    {
        let path = String::from_str(self.alloc, path)?;
        self.entries.insert(path, bytes)?;
        Ok(())
    }

    // The bytes of the file at the path, if there is one.
    pub(crate) fn find(&self, path: &str) -> Option<&Bytes>
        ensures { option_copied result ≡ file_at path.now self.now }
    {
        self.entries.get(path)
    }

    // Removes the file at the path, if there is one.
    pub(crate) fn remove(&mut self, path: &str)
        ensures { self.new ≡ files_without path.now self.old }
    {
        self.entries.remove(path);
    }
}
