//! A row, as far as it is read.

use super::fault::RowFault;
use super::file::File;
use super::lines::Line;
use super::wanted::Wanted;
use std::alloc::{AllocError, Global};

/// How many files a folder takes if its row doesn't say.
const ROOM: usize = 64;

/// The files of a row, and the call that is being read.
#[derive(Drop)]
pub struct Row {
    alloc: Global,
    /// The files.
    pub files: Vec<File>,
    // The first of the files to which lines go.
    begun: usize,
    /// How many files the folder takes.
    pub room: usize,
    /// The call that is being read, if there is one.
    pub wanted: Option<Wanted>,
}

impl Row {
    /// A row without a file.
    pub fn new(alloc: Global) -> Row {
        Row {
            alloc,
            files: Vec::new(alloc),
            begun: 0,
            room: ROOM,
            wanted: None,
        }
    }

    /// Begins a file.
    fn begin(&mut self, name: &str) -> Result<(), AllocError> {
        self.begun = self.files.len();
        let file = File::new(self.alloc, name, &[])?;
        self.files.push(file)?;
        Ok(())
    }

    /// Begins this many files; their names are the numbers from 0 on.
    fn begin_all(&mut self, count: u64) -> Result<(), AllocError> {
        let begun = self.files.len();
        for number in 0..count {
            let name = format!(in self.alloc; "{number}")?;
            self.begin(name.as_str())?;
        }
        self.begun = begun;
        Ok(())
    }

    /// Keeps a file, in place of any of its name. Err if memory was refused.
    pub fn keep(&mut self, file: File) -> Result<(), AllocError> {
        for kept in self.files.iter_mut() {
            if kept.name.as_str() == file.name.as_str() {
                kept.bytes = file.bytes;
                return Ok(());
            }
        }
        self.files.push(file)?;
        Ok(())
    }

    /// Appends bytes to the file that the call puts last, or, without a call, to the files that were begun last; there `%`
    /// is the number of the file, if there are several.
    fn write(&mut self, text: &str) -> Result<(), RowFault> {
        if let Some(wanted) = &mut self.wanted {
            return wanted.write(text);
        }
        let is_one = self.files.len() == self.begun.saturating_add(1);
        for (number, file) in self.files.iter_mut().skip(self.begun).enumerate() {
            if is_one {
                file.bytes.extend_from_slice(text.as_bytes())?;
            } else {
                let text = numbered(self.alloc, text, number as u64)?;
                file.bytes.extend_from_slice(text.as_bytes())?;
            }
        }
        Ok(())
    }

    /// Appends this many lines to the files.
    fn write_lines(&mut self, count: u64, text: &str) -> Result<(), RowFault> {
        for number in 0..count {
            let line = numbered(self.alloc, text, number)?;
            self.write(line.as_str())?;
            self.write("\n")?;
        }
        Ok(())
    }

    /// Appends bytes to the file that was begun last.
    fn write_bytes(&mut self, digits: &str) -> Result<(), RowFault> {
        let file = self.files.last_mut().ok_or(RowFault::BadLine)?;
        for pair in digits.split(' ') {
            let byte = u8::from_str_radix(pair, 16).ok().ok_or(RowFault::BadLine)?;
            file.bytes.push(byte)?;
        }
        Ok(())
    }

    /// The call that is being read.
    fn call(&mut self) -> Result<&mut Wanted, RowFault> {
        self.wanted.as_mut().ok_or(RowFault::BadLine)
    }

    /// Takes a line, which has this number. BadLine if it doesn't fit here; OutOfMemory if memory was refused.
    pub fn take(&mut self, at: usize, line: Line<'_>) -> Result<(), RowFault> {
        match line {
            Line::Nothing => {}
            Line::Row => *self = Row::new(self.alloc),
            Line::File(name) => self.begin(name)?,
            Line::Files(count) => self.begin_all(count)?,
            Line::Room(room) => self.room = room,
            Line::Text(text) => {
                self.write(text)?;
                self.write("\n")?;
            }
            Line::Part(text) => self.write(text)?,
            Line::Lines(count, text) => self.write_lines(count, text)?,
            Line::Bytes(digits) => self.write_bytes(digits)?,
            Line::Call(words) => self.wanted = Some(Wanted::new(self.alloc, at, words)?),
            Line::Printed(text) => self.call()?.print(text)?,
            Line::Told(text) => self.call()?.tell(text)?,
            Line::Status(status) => self.call()?.status = status,
            Line::Put(name) => self.call()?.begin(name)?,
        }
        Ok(())
    }
}

/// A text with a number in place of each `%`.
fn numbered(alloc: Global, text: &str, number: u64) -> Result<String, AllocError> {
    let number = format!(in alloc; "{number}")?;
    text.replace(alloc, '%', number.as_str())
}
