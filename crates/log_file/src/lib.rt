//! Log files: the devices that hold them, the reader of one, and its writer.
#![tactic(auto)]

mod byte_sink;
mod byte_source;
mod device_fault;
mod entry_list;
mod fault;
mod laws;
mod log_reader;
mod log_set;
mod mem_sink;
mod mem_source;
mod numbered_line;
mod one_line;
mod one_log;
mod pieces;
mod read;
mod record_list;
mod record_reader;
mod slice_source;
mod stage;
mod step;
mod write;
mod write_fault;

pub use byte_sink::{ByteSink, FromWrite, write_all};
pub use byte_source::{ByteSource, FromRead};
pub use device_fault::{ReadFailed, ReadFault, WriteFailed, WriteFault};
pub use fault::{FormatFault, LogFault, SetFault};
pub use laws::{
    fault_stays, faultless_spells_one, no_fault_passed_over, no_spelling_begins_another,
    spelled_has_no_fault,
};
pub use log_reader::LogReader;
pub use log_set::LogSet;
pub use mem_sink::MemSink;
pub use mem_source::MemSource;
pub use numbered_line::line_of;
pub use one_log::read_log;
pub use pieces::read_pieces;
pub use read::read_all;
pub use record_reader::RecordReader;
pub use slice_source::SliceSource;
pub use step::Step;
pub use write::{print_log, write_log};
pub use write_fault::LogWriteFault;
