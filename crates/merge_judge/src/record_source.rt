//! Sources of the records of a log.

ghost use Rattle.std.specs.Prelude.{◌≡◌, ◌<◌, ◌≤◌, ℕ, List, [], Option, IfOk, IsErrOf};
ghost use Rattle.log_record.specs.declared.record.Record.{Record};
ghost use Rattle.log_file.specs.Answering.{IsFaultless};
ghost use Rattle.log_file.specs.Devices.{Failed};
ghost use Rattle.merge_judge.specs.LaneParts.{KeptLog};
ghost use Rattle.merge_judge.specs.inner.Following.{FollowsOn, IsNextOn};

use log_file::LogFault;
use log_record::Record;
use mem_op::CoreId;
use std::alloc::{AllocError, Global};

/// How far a log is read.
pub(crate) trait Reading: Drop {
    /// How far the log's text is read, and which records it gave.
    ghost kept: { Self → KeptLog };
}

/// A source of the records of a log, one after another.
pub(crate) trait RecordSource<L: Reading> {
    /// The text of the log from here on, if the source tells it.
    ghost remaining: { Self → Option (List ℕ) };

    /// How many reads have failed.
    ghost failed: { Self → ℕ };

    /// Whether it gives the log of this core of so many cores.
    ghost fits: { ℕ → ℕ → Self → Type 0 };

    /// Opens the log of this core of `cores`, and gives no record yet. Err if memory was refused.
    fn open(&mut self, alloc: Global, core: CoreId, cores: u64) -> Result<L, AllocError>
        requires core { core < cores }
        requires cores { cores ≤ 64 }
        requires fits { fits core cores self.old }
        ensures follows { IfOk result (λ log.
            FollowsOn core cores (remaining self.old) (remaining self.new) (L.kept log) []) }
        ensures quiet { failed self.new ≡ failed self.old };

    /// The next record of the log; None if it has ended and is whole. Otherwise its first fault, or
    /// Read if the source failed.
    fn next(&mut self, log: &mut L) -> Result<Option<Record>, LogFault>
        requires { IsFaultless (L.kept log.old).log.reader }
        ensures next { (core cores : ℕ) (first : Option (List ℕ)) (records : List Record)
            → FollowsOn core cores first (remaining self.old) (L.kept log.old) records
            → IsNextOn core cores first records result (remaining self.new) (L.kept log.new) }
        ensures read { IsErrOf result LogFault.Read → Failed (failed self.old) (failed self.new) }
        ensures quiet { ¬ IsErrOf result LogFault.Read → failed self.new ≡ failed self.old };
}
