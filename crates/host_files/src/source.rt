//! What the host's bytes are read from.

ghost use Rattle.std.specs.Prelude.{IsTrue, OnErr};
ghost use Rattle.host_files.specs.Host.{is_on_disk};
ghost use Rattle.host_files.specs.Sources.{failed_reads, left};

use log_file::{ByteSource, FromRead, ReadFailed};
use std::fs;
use std::fs::File;
use std::io::{Read, Stdin};

/// A file, or the standard input.
#[derive(Drop)]
pub enum HostSource<F, I> {
    /// A file.
    File(FromRead<F>),
    /// The standard input.
    Input(FromRead<I>),
}

/// Opens the file of a name; Err if the host refuses it. `/dev/stdin` is the standard input itself, since the host may refuse to open that by its
/// name to someone who may read it.
pub fn open(rt: &HostRuntime, name: &str) -> Result<HostSource<File, Stdin>, ReadFailed>
    ensures { OnErr result (IsTrue (is_on_disk name.now)) }
{
    if name == "/dev/stdin" {
        return Ok(HostSource::Input(FromRead::new(rt.stdin())));
    }
    match fs::open(rt, name) {
        Ok(file) => Ok(HostSource::File(FromRead::new(file))),
        Err(_) => Err(ReadFailed),
    }
}

impl<F: Read, I: Read> ByteSource for HostSource<F, I> {
    ghost remaining = { λ source. left F.remaining I.remaining source };

    ghost failed = { λ source. failed_reads source };

    fn read(&mut self, buf: &mut [u8]) -> Result<usize, ReadFailed> {
        match self {
            HostSource::File(source) => source.read(buf),
            HostSource::Input(source) => source.read(buf),
        }
    }

    fn failures(&self) -> u64 {
        match self {
            HostSource::File(source) => source.failures(),
            HostSource::Input(source) => source.failures(),
        }
    }
}
