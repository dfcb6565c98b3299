//! The logs of cores, written to a folder.

ghost use Rattle.std.specs.Prelude.{◌≡◌, ◌≢◌, ◌≤◌, ◌<◌, ◌⊎◌, ℕ, List, length, IfErr, OnOk};
ghost use Rattle.mem_op.specs.Limits.{operation_limit};
ghost use Rattle.command_line.specs.RunFiles.{IsLogName};
ghost use Rattle.host_files.specs.Files.{KeepsFiles};
ghost use Rattle.log_file.specs.Devices.{Failed, Tells};
ghost use Rattle.log_file.specs.Log.{SpellsIn};
ghost use Rattle.commands.specs.Logs as logs;
ghost use Rattle.commands.specs.inner.CoreLogs.{AreShort, core_log};
ghost use Rattle.commands.specs.inner.Performing.{IsUnprinted};

use super::refusal::Refusal;
use core_unit::CoreUnit;
use host_files::Folder;
use log_file::print_log;
use log_record::{Format, Record};
use mem_op::CoreId;
use std::alloc::Global;

/// Where the logs of cores are.
#[derive(Clone, Copy)]
pub(crate) enum CoreLogs<'a> {
    /// In the units that performed the operations.
    OfUnits(&'a [CoreUnit]),
    /// In a list that was read, core 0's first.
    Read(&'a [Vec<Record>]),
}

impl<'a> CoreLogs<'a> {
    /// The log of a core. It is empty if there is none, or if another core's unit is at its place.
    fn log(self, core: CoreId) -> &'a [Record]
        requires { AreShort self }
        ensures records { result.now ≡ core_log self.entry core }
        ensures few { length result.now ≤ operation_limit }
    {
        let place = core.get() as usize;
        match self {
            CoreLogs::OfUnits(units) => match units.get(place) {
                Some(unit) if unit.core().get() == core.get() => unit.log(),
                _ => &[],
            },
            CoreLogs::Read(logs) => match logs.get(place) {
                Some(log) => log.as_slice(),
                None => &[],
            },
        }
    }
}

/// Writes the log of each core, of `cores`, in this format, and answers how many operations they have
/// performed. The first log that can't be written ends it: 29 if its put fails, and 10 if a growth was refused.
pub(crate) fn write_logs<F: Folder>(
    alloc: Global,
    folder: &mut F,
    out: &str,
    format: Format,
    of: CoreLogs<'_>,
    cores: usize,
) -> Result<u64, Refusal>
    requires cores { cores ≤ 64 }
    requires short { AreShort of }
    ensures logs { OnOk result (logs.ArePut format (F.files folder.old)
        (F.files folder.new) out.now cores (core_log of.entry)) }
    ensures err { IfErr result IsUnprinted }
    ensures far { logs.ArePutAsFar format (F.files folder.old)
        (F.files folder.new) out.now cores (core_log of.entry) }
    ensures others { KeepsFiles (F.files folder.old).told (F.files folder.new).told (IsLogName out.now) }
{
    let mut count = 0;
    for number in 0..cores {
        let core = CoreId::at(number);
        let records = of.log(core);
        write_log_of(alloc, folder, out, format, core, cores, records)?;
        count += records.len() as u64;
    }
    Ok(count)
}

/// Writes the log of a core, of `cores`, in this format: its name is that of the logs, a dot and the core's number.
fn write_log_of<F: Folder>(
    alloc: Global,
    folder: &mut F,
    out: &str,
    format: Format,
    core: CoreId,
    cores: usize,
    records: &[Record],
) -> Result<(), Refusal>
    requires core { core < cores }
    requires cores { cores ≤ 64 }
    requires few { length records.now ≤ operation_limit }
    ensures ok { OnOk result ((text : List ℕ) × Tells ((F.files folder.new).told (logs.log_name out.now core)) text
        × SpellsIn format core cores text records.now) }
    ensures others { (name : List ℕ) → name ≢ logs.log_name out.now core
        → (F.files folder.new).told name ≡ (F.files folder.old).told name }
    ensures quiet { OnOk result ((F.files folder.new).failed ≡ (F.files folder.old).failed) }
    ensures err { IfErr result (λ refusal. IsUnprinted refusal
        × (Failed (F.files folder.old).failed (F.files folder.new).failed ⊎ (F.files folder.new ≡ F.files folder.old))) }
{
    let Ok(name) = format!(in alloc; "{out}.{}", core.get()) else {
        return Err(Refusal::OutOfMemory);
    };
    let Ok(text) = print_log(alloc, format, core, cores as u64, records) else {
        return Err(Refusal::OutOfMemory);
    };
    match folder.put(name.as_str(), text.as_bytes()) {
        Ok(()) => Ok(()),
        Err(_) => Err(Refusal::LogUnwritten {
            file: core.get() as usize,
        }),
    }
}
