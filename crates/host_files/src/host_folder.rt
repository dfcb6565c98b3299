//! The host's files, and its standard input under the name `/dev/stdin`.

ghost use Rattle.std.specs.Prelude.{◌≡◌, []};
ghost use Rattle.host_files.specs.Host.{files_of_host};
ghost use Rattle.host_files.specs.Names.{names_in};

use super::folder::Folder;
use super::putting::put;
use super::refused::RefusedNames;
use super::source::{HostSource, open};
use log_file::{ReadFault, WriteFailed};
use std::fs::File;
use std::io::Stdin;

/// The host's files by their paths.
#[derive(Drop)]
pub struct HostFolder<'a> {
    rt: &'a HostRuntime,
    refused: RefusedNames,
    failures: u64,
}

impl<'a> HostFolder<'a> {
    /// The files of the host.
    pub fn new(rt: &'a HostRuntime) -> HostFolder<'a>
        ensures host { result.rt ≡ rt.entry }
        ensures refused { names_in result.refused ≡ [] }
        ensures failed { result.failures ≡ 0 }
    {
        HostFolder {
            rt,
            refused: RefusedNames::new(rt.alloc()),
            failures: 0,
        }
    }
}

impl<'a> Folder for HostFolder<'a> {
    ghost files = { λ folder. files_of_host (names_in folder.refused) folder.failures };

    type Source = HostSource<File, Stdin>;

    fn open_file(&mut self, name: &str) -> Result<HostSource<File, Stdin>, ReadFault> {
        match open(self.rt, name) {
            Ok(source) => Ok(source),
            Err(failed) => {
                self.refused.push(self.rt.alloc(), name)?;
                Err(ReadFault::from(failed))
            }
        }
    }

    fn put(&mut self, name: &str, bytes: &[u8]) -> Result<(), WriteFailed> {
        let is_put = put(self.rt, name, bytes);
        if is_put.is_err() {
            self.failures = self.failures.saturating_add(1);
        }
        is_put
    }
}
