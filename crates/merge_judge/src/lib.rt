//! The judge of a set of log files in constant memory. It writes the order of a set that gets Yes.
#![tactic(auto)]

mod final_verdict;
mod judging;
mod lane;
mod merge;
mod merge_fault;
mod nowhere;
mod open_log;
mod order;
mod order_text;
mod record_judging;
mod record_slice;
mod record_source;
mod sourced_memory;

pub use judging::{merge_judge, merged_verdict};
pub use merge_fault::MergeFault;
pub use order_text::print_order;
pub use record_judging::records_verdict;
pub use record_slice::{RecordSlice, Recorded};
