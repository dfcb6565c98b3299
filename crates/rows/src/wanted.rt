//! A call, and what has to come of it.

use super::fault::RowFault;
use super::file::File;
use std::alloc::{AllocError, Global};

/// A call, and what it has to do.
#[derive(Drop)]
pub struct Wanted {
    alloc: Global,
    /// Its line, counted from 1.
    pub line: usize,
    /// Its words.
    pub words: String,
    /// Its exit status.
    pub status: u8,
    /// What it prints.
    pub printed: String,
    /// What it tells on standard error.
    pub told: String,
    /// The files that it puts.
    pub put: Vec<File>,
}

impl Wanted {
    /// A call that ends with 0 and does nothing else.
    pub(crate) fn new(alloc: Global, line: usize, words: &str) -> Result<Wanted, AllocError> {
        Ok(Wanted {
            alloc,
            line,
            words: String::from_str(alloc, words)?,
            status: 0,
            printed: String::new(alloc),
            told: String::new(alloc),
            put: Vec::new(alloc),
        })
    }

    /// It prints one more line.
    pub(crate) fn print(&mut self, text: &str) -> Result<(), AllocError> {
        self.printed.push_str(text)?;
        self.printed.push('\n')
    }

    /// It tells one more line.
    pub(crate) fn tell(&mut self, text: &str) -> Result<(), AllocError> {
        self.told.push_str(text)?;
        self.told.push('\n')
    }

    /// It puts one more file.
    pub(crate) fn begin(&mut self, name: &str) -> Result<(), AllocError> {
        let file = File::new(self.alloc, name, &[])?;
        self.put.push(file)?;
        Ok(())
    }

    /// Appends bytes to the file that it puts last.
    pub(crate) fn write(&mut self, text: &str) -> Result<(), RowFault> {
        let file = self.put.last_mut().ok_or(RowFault::BadLine)?;
        file.bytes.extend_from_slice(text.as_bytes())?;
        Ok(())
    }
}
