//! All that a device has left.

ghost use Rattle.std.specs.Prelude.{◌≡◌, IfOk, IsErrOf};
ghost use Rattle.log_file.specs.Devices.{Failed, Tells};

use super::byte_source::ByteSource;
use super::device_fault::ReadFault;
use std::alloc::Global;

/// The most bytes of a piece.
const READ_PIECE_BYTES: usize = 4_096;

/// The bytes that a source has left. 10 comes if a growth was refused, 28 if a read failed.
pub fn read_all<S: ByteSource>(alloc: Global, source: &mut S) -> Result<Vec<u8>, ReadFault>
    ensures bytes { IfOk result (λ bytes. Tells (S.remaining source.old) bytes.items) }
    // It answers a failed read only if the source failed in this call.
    ensures read { IsErrOf result ReadFault.Read →
        Failed (S.failed source.old) (S.failed source.new) }
    // And it passes over no failed read.
    ensures quiet { ¬ IsErrOf result ReadFault.Read → S.failed source.new ≡ S.failed source.old }
{
    let mut found = Vec::new(alloc);
    let mut piece = [0u8; READ_PIECE_BYTES];
    loop {
        let count = source.read(&mut piece)?;
        if count == 0 {
            return Ok(found);
        }
        found.extend_from_slice(&piece[..count])?;
    }
}
