//! A folder in memory.

ghost use Rattle.std.specs.Prelude.{◌≡◌, ◌∷◌, ◌++◌, [], OnErr, OnOk, IfNone, IfSome, IsTrue, Some, string_bytes};
ghost use Rattle.host_files.specs.Names.{names_in};
ghost use Rattle.log_file.specs.InMemory.{bytes_left};
ghost use Rattle.rows.specs.Files.{files_in, may_refuse_of, told_of};
ghost use Rattle.rows.specs.Held.{files_held};
ghost use Rattle.rows.specs.declared.file.File.{File};

use super::file::{File, find};
use host_files::{Folder, RefusedNames};
use log_file::{MemSource, ReadFault, Step, WriteFailed};
use std::alloc::Global;

/// Files by their names, and how the reads of one of them go.
#[derive(Clone, Copy)]
pub struct Given<'a> {
    /// The files.
    pub files: &'a [File],
    /// The name of a file, and the steps of its reads.
    pub slow: Option<(&'a str, &'a [Step])>,
    /// How many files the folder takes.
    pub room: usize,
}

/// A folder in memory. It tells the bytes of each of its files, and for one that was put, the bytes that were put last. It doesn't open what was put
/// in it.
#[derive(Drop)]
pub struct MemoryFolder<'a> {
    alloc: Global,
    given: Given<'a>,
    put: Vec<File>,
    refused: RefusedNames,
    failures: u64,
}

impl<'a> MemoryFolder<'a> {
    /// The folder of these files.
    pub fn new(alloc: Global, given: Given<'a>) -> MemoryFolder<'a>
        ensures { files_held result ≡ files_in given.entry.files.now [] [] 0 }
    {
        MemoryFolder {
            alloc,
            given,
            put: Vec::new(alloc),
            refused: RefusedNames::new(alloc),
            failures: 0,
        }
    }

    /// The files that were put, in their order.
    pub fn into_put(self) -> Vec<File>
        ensures { result ≡ self.entry.put }
    {
        let MemoryFolder { put, .. } = self;
        put
    }

    /// A source of the file of a name; none if there is no such file, or it was put.
    fn source(&self, name: &str) -> Option<MemSource<'a>>
        ensures some { IfSome result (λ source. told_of self.now.given.files.now self.now.put.items name.now ≡ Some (bytes_left source)) }
        ensures none { IfNone result (IsTrue (may_refuse_of self.now.given.files.now self.now.put.items name.now)) }
    {
        if find(self.put.as_slice(), name).is_some() {
            return None;
        }
        let file = find(self.given.files, name)?;
        let steps = match self.given.slow {
            Some((slow, steps)) if slow == name => steps,
            _ => &[],
        };
        Some(MemSource::new(file.bytes.as_slice(), steps))
    }

    /// Takes a file, if there is room and memory for it.
    fn take(&mut self, name: &str, bytes: &[u8]) -> Result<(), WriteFailed>
        ensures ok { OnOk result ((file : File) × (string_bytes file.name ≡ name.now) × (file.bytes.items ≡ bytes.now)
            × (self.new.put.items ≡ self.old.put.items ++ file ∷ [])) }
        ensures err { OnErr result (self.new.put.items ≡ self.old.put.items) }
        ensures given { self.new.given ≡ self.old.given }
        ensures refused { names_in self.new.refused ≡ names_in self.old.refused }
        ensures failures { self.new.failures ≡ self.old.failures }
    {
        if self.put.len() >= self.given.room {
            return Err(WriteFailed);
        }
        let Ok(file) = File::new(self.alloc, name, bytes) else {
            return Err(WriteFailed);
        };
        if self.put.push(file).is_err() {
            return Err(WriteFailed);
        }
        Ok(())
    }
}

impl<'a> Folder for MemoryFolder<'a> {
    ghost files = { files_held };

    type Source = MemSource<'a>;

    fn open_file(&mut self, name: &str) -> Result<MemSource<'a>, ReadFault> {
        match self.source(name) {
            Some(source) => Ok(source),
            None => {
                self.refused.push(self.alloc, name)?;
                Err(ReadFault::Read)
            }
        }
    }

    fn put(&mut self, name: &str, bytes: &[u8]) -> Result<(), WriteFailed> {
        let taken = self.take(name, bytes);
        if taken.is_err() {
            self.failures = self.failures.saturating_add(1);
        }
        taken
    }
}
