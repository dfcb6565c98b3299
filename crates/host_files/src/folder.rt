//! Files by their names.

ghost use Rattle.std.specs.Prelude.{◌≡◌, ◌≢◌, ℕ, List, Some, IfOk, IfSome, OnOk};
ghost use Rattle.log_file.specs.Devices.{CountsFailure, Tells};
ghost use Rattle.host_files.specs.Files.{Files, IsOpened};

use log_file::{ByteSource, ReadFault, WriteFailed};

/// Files by their names.
pub trait Folder {
    /// What is known of the folder.
    ghost files: { Self → Files };

    /// A file that was opened, at its first byte.
    type Source: ByteSource + Drop;

    /// Opens the file of a name, whose bytes are those that the folder tells. It answers 28 Read if the folder refuses the file, and keeps the file's
    /// name then; and 10 if memory was refused.
    fn open_file(&mut self, name: &str) -> Result<Self::Source, ReadFault>
        ensures opened { IfOk result (λ source. IfSome ((files self.old).told name.now)
            (λ bytes. Self.Source.remaining source ≡ Some bytes)) }
        ensures refused { IsOpened name.now result (files self.old) (files self.new) };

    /// Puts a file of these bytes under a name, in place of any that is there. It answers 29 Write if that fails, and counts
    /// the failure. What the folder tells of other names stays.
    fn put(&mut self, name: &str, bytes: &[u8]) -> Result<(), WriteFailed>
        ensures bytes { OnOk result (Tells ((files self.new).told name.now) bytes.now) }
        ensures others { (other : List ℕ) → other ≢ name.now
            → (files self.new).told other ≡ (files self.old).told other }
        ensures counts { CountsFailure (files self.old).failed (files self.new).failed result }
        ensures refused { (files self.new).refused ≡ (files self.old).refused };
}
