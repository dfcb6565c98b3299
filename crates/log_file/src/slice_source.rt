//! A source over a slice.

ghost use Rattle.std.specs.Prelude.{◌≡◌};
ghost use Rattle.log_file.specs.InMemory.{rest_of};

use super::byte_source::ByteSource;
use super::device_fault::ReadFailed;
use std::io::Read;

/// A source of the bytes of a slice. It never fails.
#[derive(Drop)]
pub struct SliceSource<'a> {
    bytes: &'a [u8],
}

impl<'a> SliceSource<'a> {
    /// A source of these bytes.
    pub fn new(bytes: &'a [u8]) -> SliceSource<'a>
        ensures { rest_of result ≡ bytes.entry.now }
    {
        SliceSource { bytes }
    }
}

impl ByteSource for SliceSource<'_> {
    ghost use Rattle.std.specs.Prelude.{Some};

    ghost remaining = { λ source. Some source.bytes.now };

    ghost failed = { λ _. 0 };

    fn read(&mut self, buf: &mut [u8]) -> Result<usize, ReadFailed> {
        let Ok(count) = self.bytes.read(buf) else {
            unreachable!()
        };
        Ok(count)
    }

    fn failures(&self) -> u64 {
        0
    }
}
