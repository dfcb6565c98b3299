//! Devices that show the progress of the program.

use super::progress::Progress;
use log_file::{ByteSink, ByteSource, ReadFailed, WriteFailed};

/// A device that does what the one in it does. A source counts its lines, too; a sink takes the line of the progress away before it takes anything.
#[derive(Drop)]
pub(crate) struct Shown<'a, D> {
    pub(crate) device: D,
    pub(crate) progress: &'a Progress<'a>,
}

impl<'a, D: ByteSource> ByteSource for Shown<'a, D> {
    ghost remaining = { λ shown. D.remaining shown.device };

    ghost failed = { λ shown. D.failed shown.device };

    fn read(&mut self, buf: &mut [u8]) -> Result<usize, ReadFailed> {
        match self.device.read(buf) {
            Ok(count) => {
                self.progress.read(&buf[..count]);
                Ok(count)
            }
            Err(failed) => Err(failed),
        }
    }

    fn failures(&self) -> u64 {
        self.device.failures()
    }
}

impl<'a, D: ByteSink> ByteSink for Shown<'a, D> {
    ghost contents = { λ shown. D.contents shown.device };

    ghost failed = { λ shown. D.failed shown.device };

    fn write(&mut self, piece: &[u8]) -> Result<usize, WriteFailed> {
        self.progress.wipe();
        self.device.write(piece)
    }

    fn failures(&self) -> u64 {
        self.device.failures()
    }
}
