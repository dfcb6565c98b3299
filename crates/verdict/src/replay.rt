//! Whether a list of ids is an order in which the logs answer as one memory.

ghost use Rattle.std.specs.Prelude.{◌↔◌, IsTrue, IfOk};
ghost use Rattle.mem_op.specs.Consistency.{IsSequentialOrder};
ghost use Rattle.log_record.specs.Entries.{record_lists, operations_of};

use super::accesses::accesses_of;
use flat_replay::replays;
use log_record::Record;
use mem_op::OpId;
use std::alloc::{AllocError, Global};

/// Whether the list is a serial order of the operations of the logs that keeps program order, and in which
/// each load and each swap read the word of the last earlier store to its address, or 0. It looks at no
/// stamp, rank or source. Err only if memory was refused.
pub fn replay_order(alloc: Global, order: &[OpId], logs: &[Vec<Record>]) -> Result<bool, AllocError>
    ensures { IfOk result (λ holds.
        IsTrue holds ↔ IsSequentialOrder (operations_of (record_lists logs.now)) order.now) }
{
    replays(alloc, &accesses_of(alloc, logs)?, order)
}
