//! The logs in files.

ghost use Rattle.std.specs.Prelude.{◌≡◌, ◌≤◌, All, IfErr, IfOk, length, vec_len, OnOk};
ghost use Rattle.verdict.specs.Counts.{IsInRange};
ghost use Rattle.mem_op.specs.Limits.{operation_limit};
ghost use Rattle.log_record.specs.Entries.{record_lists};
ghost use Rattle.host_files.specs.Files.{IsOnlyRead, IsUnread};
ghost use Rattle.commands.specs.LogFiles.{AreSourcesOf, IsOpenFault, Spelled};
ghost use Rattle.commands.specs.Refusals.{from_judge};
ghost use Rattle.commands.specs.inner.ReadLogs.{AreLogless};

use host_files::Folder;
use log_file::{LogSet, ReadFault};
use log_record::Record;
use std::alloc::Global;
use verdict::{JudgeFault, check_counts};

/// Opens the files of these names in their order: 6 if they aren't 1 to 64, before one is opened, and 28 for the first that can't be
/// opened.
pub fn open_all<F: Folder>(
    alloc: Global,
    folder: &mut F,
    names: &[&str],
) -> Result<Vec<F::Source>, JudgeFault>
    ensures ok { IfOk result (λ sources. AreSourcesOf (F.files folder.old).told
        F.Source.remaining sources.items names.now) }
    ensures range { OnOk result (IsInRange (length names.now)) }
    ensures quiet { OnOk result (F.files folder.new ≡ F.files folder.old) }
    ensures read { IsOnlyRead (F.files folder.old) (F.files folder.new) }
    ensures err { IfErr result (IsOpenFault (F.files folder.old) (F.files folder.new) names.now) }
{
    check_counts(names.len(), 1)?;
    let mut sources = Vec::new(alloc);
    'opening: for (file, name) in names.iter().enumerate() {
        let source = match folder.open_file(name) {
            Ok(source) => source,
            Err(ReadFault::Read) => return Err(JudgeFault::Read { file }),
            Err(ReadFault::OutOfMemory) => return Err(JudgeFault::OutOfMemory),
        };
        if sources.push(source).is_err() {
            return Err(JudgeFault::OutOfMemory);
        }
    }
    Ok(sources)
}

/// The logs in the files of these names, one of each core, or why there are none. All files are opened before one is read, so 6 of their
/// number and 28 of a file that can't be opened come first.
pub(crate) fn read_log_files<F: Folder>(
    alloc: Global,
    folder: &mut F,
    names: &[&str],
) -> Result<Vec<Vec<Record>>, JudgeFault>
    ensures ok { IfOk result (λ logs. Spelled (F.files folder.old).told names.now
        (λ read. read ≡ record_lists logs.items)) }
    ensures range { OnOk result (IsInRange (length names.now)) }
    ensures count { IfOk result (λ logs. vec_len logs ≡ length names.now) }
    ensures short { IfOk result (λ logs. All (λ log. vec_len log ≤ operation_limit) logs.items) }
    ensures quiet { OnOk result (F.files folder.new ≡ F.files folder.old) }
    ensures read { IsOnlyRead (F.files folder.old) (F.files folder.new) }
    ensures err { IfErr result (λ fault. AreLogless
        (IsUnread F.Source.remaining F.Source.failed (F.files folder.old) (F.files folder.new)) names.now (from_judge fault)) }
{
    let mut sources = open_all(alloc, folder, names)?;
    let set = LogSet::read(alloc, sources.as_mut_slice())?;
    Ok(set.logs(alloc)?)
}
