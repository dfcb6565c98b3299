//! Writers of the ids of an order.

ghost use Rattle.std.specs.Prelude.{◌++◌, List, ℕ, [], IsErrOf};
ghost use Rattle.log_file.specs.Devices.{TellsFailure};
ghost use Rattle.merge_judge.specs.OrderText.{end_line, id_line};
ghost use Rattle.merge_judge.specs.inner.Writing.{IsWritten};

use log_file::{ByteSink, WriteFault};
use mem_op::OpId;

/// Takes the ids of an order, one after another, and writes their lines.
pub(crate) trait Order<W: ByteSink>: Drop {
    /// The unwritten lines.
    ghost kept: { Self → List ℕ };

    /// Adds an id.
    fn add(&mut self, out: &mut W, id: OpId) -> Result<(), WriteFault>
        ensures written { IsWritten (W.contents out.old) (W.contents out.new) (kept self.old ++ id_line id)
            result (kept self.new) }
        ensures failures { TellsFailure (IsErrOf result WriteFault.Write) (W.failed out.old) (W.failed out.new) };

    /// Adds the last line, which has the number of ids, and writes all unwritten lines.
    fn end(self, out: &mut W, count: u64) -> Result<(), WriteFault>
        ensures written { IsWritten (W.contents out.old) (W.contents out.new) (kept self ++ end_line count)
            result [] }
        ensures failures { TellsFailure (IsErrOf result WriteFault.Write) (W.failed out.old) (W.failed out.new) };
}
