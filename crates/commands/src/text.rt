//! The texts of files.

ghost use Rattle.std.specs.Prelude.{◌≡◌, IfErr, IfOk, OnOk};
ghost use Rattle.std.specs.Option.{IsSomeAnd};
ghost use Rattle.log_file.specs.Devices.{Tells};
ghost use Rattle.host_files.specs.Files.{IsOnlyRead, IsUnread};
ghost use Rattle.commands.specs.Programs.{AreProgramsIn};
ghost use Rattle.commands.specs.inner.Performing.{IsInputFault};
ghost use Rattle.commands.specs.inner.Texts.{IsNoText};

use super::place::Input;
use super::refusal::Refusal;
use core_program::ProgramSet;
use host_files::Folder;
use log_file::{ReadFault, read_all};
use refuted_cases::Names;
use std::alloc::Global;

/// The text of a file of the folder: 28 if it can't be opened or read, and 10 if a growth was refused.
pub(crate) fn read_text<F: Folder>(
    alloc: Global,
    folder: &mut F,
    name: &str,
) -> Result<Vec<u8>, ReadFault>
    ensures ok { IfOk result (λ text. Tells ((F.files folder.old).told name.now) text.items) }
    ensures err { IfErr result (IsNoText (IsUnread F.Source.remaining F.Source.failed (F.files folder.old) (F.files folder.new)) name.now) }
    ensures quiet { OnOk result (F.files folder.new ≡ F.files folder.old) }
    ensures read { IsOnlyRead (F.files folder.old) (F.files folder.new) }
{
    let mut source = folder.open_file(name)?;
    read_all(alloc, &mut source)
}

/// The programs in a file of the folder: 28 if it can't be opened or read, 10 if a growth was refused, and else the
/// first fault of its text.
pub(crate) fn read_programs<F: Folder>(
    alloc: Global,
    folder: &mut F,
    name: &str,
) -> Result<ProgramSet, Refusal>
    ensures ok { IfOk result (AreProgramsIn (F.files folder.old).told name.now) }
    ensures err { IfErr result (IsInputFault Input.Programs
        (IsUnread F.Source.remaining F.Source.failed (F.files folder.old) (F.files folder.new) name.now)) }
    ensures quiet { OnOk result (F.files folder.new ≡ F.files folder.old) }
    ensures read { IsOnlyRead (F.files folder.old) (F.files folder.new) }
{
    let text = match read_text(alloc, folder, name) {
        Ok(text) => text,
        Err(ReadFault::Read) => return Err(Refusal::Unread(Input::Programs)),
        Err(ReadFault::OutOfMemory) => return Err(Refusal::OutOfMemory),
    };
    Ok(ProgramSet::parse(alloc, text.as_slice())?)
}

/// The names of addresses in a file of the folder, if one is given, and else none: 28 if it can't be opened or read, 10 if a growth
/// was refused, and else the first line that isn't as it should be.
pub(crate) fn read_names<F: Folder>(
    alloc: Global,
    folder: &mut F,
    name: Option<&str>,
) -> Result<Names, Refusal>
    ensures err { IfErr result (IsInputFault Input.Names (IsSomeAnd name.entry (λ given.
        IsUnread F.Source.remaining F.Source.failed (F.files folder.old) (F.files folder.new) given.now))) }
    ensures quiet { OnOk result (F.files folder.new ≡ F.files folder.old) }
    ensures read { IsOnlyRead (F.files folder.old) (F.files folder.new) }
{
    let Some(name) = name else {
        return Ok(Names::none(alloc));
    };
    let text = match read_text(alloc, folder, name) {
        Ok(text) => text,
        Err(ReadFault::Read) => return Err(Refusal::Unread(Input::Names)),
        Err(ReadFault::OutOfMemory) => return Err(Refusal::OutOfMemory),
    };
    Ok(Names::parse(alloc, text.as_slice())?)
}
