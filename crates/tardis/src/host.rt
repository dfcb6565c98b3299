//! A folder that shows how far its files are read.

use super::progress::Progress;
use super::shown::Shown;
use host_files::Folder;
use log_file::{ReadFault, WriteFailed};

/// A folder that does what the one in it does, and counts the lines that are read of its files.
#[derive(Drop)]
pub(crate) struct ShownFolder<'a, F> {
    pub(crate) folder: F,
    pub(crate) progress: &'a Progress<'a>,
}

impl<'a, F: Folder> Folder for ShownFolder<'a, F> {
    ghost files = { λ shown. F.files shown.folder };

    type Source = Shown<'a, F::Source>;

    fn open_file(&mut self, name: &str) -> Result<Shown<'a, F::Source>, ReadFault> {
        match self.folder.open_file(name) {
            Ok(device) => Ok(Shown {
                device,
                progress: self.progress,
            }),
            Err(fault) => Err(fault),
        }
    }

    fn put(&mut self, name: &str, bytes: &[u8]) -> Result<(), WriteFailed> {
        self.folder.put(name, bytes)
    }
}
