//! The order of a core's records.

ghost use Rattle.std.specs.Prelude.{◌≡◌, ◌<◌, length, IfSome};
ghost use Rattle.std.specs.Ordering.{is_lt};
ghost use Rattle.core_program.specs.Least.{IsLeastWhere};
ghost use Rattle.core_check.specs.CoreOrder.{is_core_fault, stamp_cmp};

use super::logged::Logged;
use log_record::Record;

/// The least index above 0 of a log at which `(ts, rank)` is less than at the index before, or none
/// if it never falls. Takes no memory.
pub fn core_fault<L: Logged>(log: &[L]) -> Option<usize>
    ensures least { IsLeastWhere (is_core_fault (L.records_of log.now)) result }
    ensures within { IfSome result (λ i. i < length (L.records_of log.now)) }
{
    for i in 1..log.len() {
        if falls(log[i - 1].logged(), log[i].logged()) {
            return Some(i);
        }
    }
    None
}

/// Whether `(ts, rank)` of the later record is less than that of the earlier.
pub fn falls(earlier: &Record, later: &Record) -> bool
    ensures { result ≡ is_lt (stamp_cmp later.now earlier.now) }
{
    (later.ts, later.rank) < (earlier.ts, earlier.rank)
}
