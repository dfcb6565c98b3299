//! A file that is put where a name is given for it.

ghost use Rattle.std.specs.Prelude.{◌≡◌, IfErr, OnOk};
ghost use Rattle.host_files.specs.Files.{KeepsFiles};
ghost use Rattle.commands.specs.Outputs.{FailsPutAt, IsNameOf, PutsAt};

use super::place::Output;
use super::refusal::Refusal;
use host_files::Folder;

/// Puts a file of these bytes under a name, if one is given: 29 of this output if that fails.
pub(crate) fn put_under<F: Folder>(
    folder: &mut F,
    name: Option<&str>,
    bytes: &[u8],
    output: Output,
) -> Result<(), Refusal>
    ensures ok { OnOk result (PutsAt (F.files folder.old) (F.files folder.new) name.entry bytes.now) }
    ensures err { IfErr result (λ fault. (fault ≡ Refusal.Unwritten output)
        × FailsPutAt (F.files folder.old) (F.files folder.new) name.entry) }
    ensures others { KeepsFiles (F.files folder.old).told (F.files folder.new).told (IsNameOf name.entry) }
{
    let Some(name) = name else {
        return Ok(());
    };
    match folder.put(name, bytes) {
        Ok(()) => Ok(()),
        Err(_) => Err(Refusal::Unwritten(output)),
    }
}
