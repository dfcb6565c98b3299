//! A log as text, and written to a device.

ghost use Rattle.std.specs.Prelude.{◌≡◌, ◌<◌, ◌≤◌, ◌↔◌, length, IfOk, OnOk, IsErrOf, IsTrue, string_bytes};
ghost use Rattle.mem_op.specs.Limits.{operation_limit};
ghost use Rattle.log_record.specs.Line.{Fits, SourceFits};
ghost use Rattle.log_file.specs.Devices.{TellsFailure, Writes};
ghost use Rattle.log_file.specs.Log.{HasEach, IsLog, SpellsIn, spelling};

use super::byte_sink::{ByteSink, write_all};
use super::write_fault::LogWriteFault;
use log_record::{Act, Format, Record, print_end, print_header};
use mem_op::{CoreId, Source};
use std::alloc::Global;

/// The text of the log of this core of `cores` in this format. 15 comes if the format is 1 and one of the
/// records is a swap, 10 if a growth was refused.
pub fn print_log(
    alloc: Global,
    format: Format,
    core: CoreId,
    cores: u64,
    records: &[Record],
) -> Result<String, LogWriteFault>
    requires core { core < cores }
    requires cores { cores ≤ 64 }
    requires few { length records.now ≤ operation_limit }
    ensures text { IfOk result (λ text. SpellsIn format core cores (string_bytes text) records.now) }
    // 15 comes exactly if a log of this format may not have one of the records.
    ensures swap { IsErrOf result LogWriteFault.SwapInFormatOne ↔ ¬ HasEach format records.now }
    ensures unwritten { ¬ IsErrOf result LogWriteFault.Write }
{
    if !has_each(format, records) {
        return Err(LogWriteFault::SwapInFormatOne);
    }
    let mut text = print_header(alloc, format, core, cores)?;
    text.push('\n')?;
    for logged in records {
        in_range(logged);
        writeln!(text, "{logged}")?;
    }
    text.push_str(&print_end(alloc, records.len() as u64)?)?;
    text.push('\n')?;
    Ok(text)
}

/// Writes the log of this core of `cores` in this format. 15 comes if the format is 1 and one of the records is
/// a swap, 10 if a growth was refused, 29 if a write failed. By then the sink has taken a beginning of the
/// log's text, and nothing if 15 comes.
pub fn write_log<W: ByteSink>(
    alloc: Global,
    sink: &mut W,
    format: Format,
    core: CoreId,
    cores: u64,
    records: &[Record],
) -> Result<(), LogWriteFault>
    requires core { core < cores }
    requires cores { cores ≤ 64 }
    requires few { length records.now ≤ operation_limit }
    // 15 comes exactly if a log of this format may not have one of the records. It comes before any byte.
    ensures swap { IsErrOf result LogWriteFault.SwapInFormatOne ↔ ¬ HasEach format records.now }
    ensures untouched { IsErrOf result LogWriteFault.SwapInFormatOne → sink.new ≡ sink.old }
    // The written bytes spell the log of these records; after a fault, a beginning of it.
    ensures log { OnOk result (IsLog format core cores records.now) }
    ensures written { Writes (W.contents sink.old) (W.contents sink.new)
        (spelling format core cores records.now) result }
    // It answers a failed write only if the sink failed in this call, and it passes over none.
    ensures failures { TellsFailure (IsErrOf result LogWriteFault.Write)
        (W.failed sink.old) (W.failed sink.new) }
{
    let text = print_log(alloc, format, core, cores, records)?;
    write_all(sink, text.as_bytes())?;
    Ok(())
}

// Whether a log of this format may have each of these records.
fn has_each(format: Format, records: &[Record]) -> bool
    ensures { IsTrue result ↔ HasEach format records.now }
{
    records.iter().all(|logged| format.has_act(&logged.act()))
}

// Does nothing: its contract says that the numbers of a record are in range.
fn in_range(logged: &Record)
    ensures { Fits logged.now }
{
    let _value = logged.value;
    let _addr = logged.addr.get();
    let _ts = logged.ts.get();
    let _rank = logged.rank.get();
    match logged.act() {
        Act::Store => {}
        Act::Load(source) => source_in_range(source),
        Act::Swap(source, _read) => source_in_range(source),
    }
}

// Does nothing: its contract says that the numbers of a source are in range.
fn source_in_range(source: Source)
    ensures { SourceFits source }
{
    if let Source::Store(id) = source {
        let _core = id.core.get();
        let _index = id.index.get();
    }
}
