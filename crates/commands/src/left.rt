//! What a run leaves in the folder: its logs, and then its numbers.

ghost use Rattle.std.specs.Prelude.{◌≡◌, ◌≤◌, ◌⊎◌, IfErr, OnOk};
ghost use Rattle.audit.specs.Runs.{kept_log};
ghost use Rattle.host_files.specs.Files.{KeepsFiles};
ghost use Rattle.commands.specs.Outputs.{FailsPutAt, IsNameOf, PutsAt};
ghost use Rattle.commands.specs.Numbers as numbers;
ghost use Rattle.commands.specs.inner.Performing.{IsUnprinted};

use super::place::Output;
use super::putting::put_under;
use super::refusal::Refusal;
use super::writing::{CoreLogs, write_logs};
use core_unit::CoreUnit;
use host_files::Folder;
use log_record::Format;
use manager_slice::ManagerSlice;
use statistics::print_statistics;
use std::alloc::Global;

/// Where a run leaves what, and how much of it there is.
#[derive(Clone, Copy)]
pub(crate) struct Leaving<'a> {
    /// What the names of the logs begin with.
    pub(crate) out: &'a str,
    /// The name of the file that the numbers go to, if one is given.
    pub(crate) statistics: Option<&'a str>,
    /// The format of the logs.
    pub(crate) format: Format,
    /// How many cores there are.
    pub(crate) cores: usize,
    /// How many slices there are.
    pub(crate) slices: usize,
}

/// Puts the numbers of a run under the name that is given for them, if one is.
fn put_numbers<F: Folder>(
    alloc: Global,
    folder: &mut F,
    leaving: &Leaving<'_>,
    units: &[CoreUnit],
    managers: &[ManagerSlice],
) -> Result<(), Refusal>
    requires { leaving.now.cores ≤ 64 }
    ensures tried { PutsAt (F.files folder.old) (F.files folder.new) leaving.now.statistics
        (numbers.numbers_of leaving.now.cores leaving.now.slices units.now managers.now)
        ⊎ FailsPutAt (F.files folder.old) (F.files folder.new) leaving.now.statistics
        ⊎ (F.files folder.new ≡ F.files folder.old) }
    ensures err { IfErr result IsUnprinted }
    ensures others { KeepsFiles (F.files folder.old).told (F.files folder.new).told
        (IsNameOf leaving.now.statistics) }
{
    let Some(name) = leaving.statistics else {
        return Ok(());
    };
    let Ok(text) = print_statistics(alloc, units, managers, leaving.cores, leaving.slices) else {
        return Err(Refusal::OutOfMemory);
    };
    put_under(folder, Some(name), text.as_slice(), Output::Statistics)
}

/// Writes the log of each core, and then the numbers of the run if a file is given for them. How many operations were performed.
/// What can't be written ends it: 29 if a put fails, and 10 if a growth was refused.
pub(crate) fn leave<F: Folder>(
    alloc: Global,
    folder: &mut F,
    leaving: &Leaving<'_>,
    units: &[CoreUnit],
    managers: &[ManagerSlice],
) -> Result<u64, Refusal>
    requires { leaving.now.cores ≤ 64 }
    ensures ok { OnOk result (numbers.AreLeftThen leaving.now.format (F.files folder.old) (F.files folder.new) leaving.now.out.now
        leaving.now.cores (kept_log units.now) (λ mid new. KeepsFiles mid.told new.told (IsNameOf leaving.now.statistics))) }
    ensures err { IfErr result IsUnprinted }
    ensures far { numbers.AreLeftAsFar leaving.now.format (F.files folder.old) (F.files folder.new) leaving.now.out.now
        leaving.now.cores (kept_log units.now) leaving.now.statistics
        (numbers.numbers_of leaving.now.cores leaving.now.slices units.now managers.now) }
    ensures others { KeepsFiles (F.files folder.old).told (F.files folder.new).told
        (numbers.IsLeftName leaving.now.out.now leaving.now.statistics) }
{
    let count = write_logs(
        alloc,
        folder,
        leaving.out,
        leaving.format,
        CoreLogs::OfUnits(units),
        leaving.cores,
    )?;
    put_numbers(alloc, folder, leaving, units, managers)?;
    Ok(count)
}
