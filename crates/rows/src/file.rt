//! Files in memory.

ghost use Rattle.std.specs.Prelude.{◌≡◌, IfOk, option_map, string_bytes};
ghost use Rattle.rows.specs.Files.{told_in};

use std::alloc::{AllocError, Global};

/// A file.
#[derive(Drop)]
pub struct File {
    /// Its name.
    pub name: String,
    /// Its bytes.
    pub bytes: Vec<u8>,
}

impl File {
    /// A file of this name and these bytes; 10 if memory was refused.
    pub fn new(alloc: Global, name: &str, bytes: &[u8]) -> Result<File, AllocError>
        ensures name { IfOk result (λ file. string_bytes file.name ≡ name.now) }
        ensures bytes { IfOk result (λ file. file.bytes.items ≡ bytes.now) }
    {
        Ok(File {
            name: String::from_str(alloc, name)?,
            bytes: Vec::from_slice(alloc, bytes)?,
        })
    }
}

/// The last file of a name, if there is one.
pub fn find<'a>(files: &'a [File], name: &str) -> Option<&'a File>
    ensures { option_map (λ file. file.now.bytes.items) result ≡ told_in files.entry.now name.now }
{
    let mut found = None;
    for file in files {
        if file.name.as_str() == name {
            found = Some(file);
        }
    }
    found
}
