//! Lists that keep the records of a log as they are read.

ghost use Rattle.std.specs.Prelude.{◌≡◌, ◌<◌, ◌++◌, ◌∷◌, [], List, OnOk, length};
ghost use Rattle.mem_op.specs.Limits.{operation_limit};
ghost use Rattle.log_file.specs.inner.Listing.{Base};

use log_record::Record;
use std::alloc::AllocError;

/// Keeps the records of a log, one after another.
pub(crate) trait RecordList {
    ghost use Rattle.log_record.specs.declared.record.Record.{Record};

    /// Its records.
    ghost records: { Self → List Record };

    /// What stays the same while it keeps records.
    ghost base: { Self → Base };

    /// Keeps one more record.
    fn keep(&mut self, logged: Record) -> Result<(), AllocError>
        requires { length (records self.old) < operation_limit }
        ensures base { base self.new ≡ base self.old }
        ensures kept { OnOk result (records self.new ≡ records self.old ++ logged ∷ []) };
}

impl RecordList for Vec<Record> {
    ghost records = { λ list. list.items };

    ghost base = { λ _. record { core = 0; before = [] } };

    #[inline(always)]
    fn keep(&mut self, logged: Record) -> Result<(), AllocError> {
        self.push(logged)?;
        Ok(())
    }
}
