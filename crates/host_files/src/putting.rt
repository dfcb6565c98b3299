//! How a file of the host is put.

use log_file::WriteFailed;
use std::fs::{File, Permissions, TryLockError};
use std::io::{ErrorKind, Write};
use std::os::unix::fs::MetadataExt;
use std::{fs, io};

/// How many drafts of one file there may be at a time.
const MOST_DRAFTS: u32 = 100;

/// A file that is written beside another, whose place it takes then.
#[derive(Drop)]
struct Draft {
    file: File,
    name: String,
}

/// Puts a file of these bytes under a name, in place of any that is there, whose mode it keeps. If that fails, a plain file under the name stays as it
/// was. What isn't a plain file, such as a device or a pipe, is written straight.
pub(crate) fn put(rt: &HostRuntime, name: &str, bytes: &[u8]) -> Result<(), WriteFailed> {
    put_where_it_leads(rt, name, bytes).map_err(|_| WriteFailed)
}

/// Puts a file where its name leads. A link that leads nowhere is written straight, since there is nothing to lose. So is one of the system's, such as
/// `/dev/stdout`: the program that opened the file behind it goes on writing there.
fn put_where_it_leads(rt: &HostRuntime, name: &str, bytes: &[u8]) -> io::Result<()> {
    if fs::symlink_metadata(rt, name).map_or(true, |standing| standing.is_file()) {
        return replace(rt, name, bytes);
    }
    let is_of_system = name.starts_with("/dev/") || name.starts_with("/proc/");
    if is_of_system || !fs::metadata(rt, name).is_ok_and(|target| target.is_file()) {
        return fs::write(rt, name, bytes);
    }
    let target = fs::canonicalize(rt, name)?;
    replace(rt, target.as_str(), bytes)
}

/// Writes a draft, and lets it take the place of a plain file or of nothing. If that fails, the draft is taken away.
fn replace(rt: &HostRuntime, name: &str, bytes: &[u8]) -> io::Result<()> {
    let mode = mode_to_keep(rt, name)?;
    let mut draft = new_draft(rt, name)?;
    let put = draft.take_place(rt, name, mode, bytes);
    if put.is_err() {
        let _ = fs::remove_file(rt, draft.name.as_str());
    }
    put
}

/// The mode of a plain file; none if nothing stands there. Err if the file's mode lets nobody write, or if this user may not write it.
fn mode_to_keep(rt: &HostRuntime, name: &str) -> io::Result<Option<Permissions>> {
    match File::options().write(true).open(rt, name) {
        Ok(file) => {
            let mode = file.metadata()?.permissions();
            if mode.readonly() {
                return Err(io::Error::from(ErrorKind::PermissionDenied));
            }
            Ok(Some(mode))
        }
        Err(failed) if failed.kind() == ErrorKind::NotFound => Ok(None),
        Err(failed) => Err(failed),
    }
}

/// Makes a draft under the first number that is free, and locks it while it is open. So a draft that nobody has locked was left by a process that was
/// stopped, and is taken away. Where the file system has no locks, it stays.
fn new_draft(rt: &HostRuntime, of: &str) -> io::Result<Draft> {
    for number in 0..MOST_DRAFTS {
        let name = format!(in rt.alloc(); "{of}.tardis-new.{number}")?;
        let left = File::options()
            .read(true)
            .write(true)
            .open(rt, name.as_str());
        if let Ok(left) = left
            && left.try_lock().is_ok()
            && is_named(rt, &left, name.as_str())
        {
            let _ = fs::remove_file(rt, name.as_str());
        }
        if let Ok(file) = File::create_new(rt, name.as_str())
            && !matches!(file.try_lock(), Err(TryLockError::WouldBlock))
            && is_named(rt, &file, name.as_str())
        {
            return Ok(Draft { file, name });
        }
    }
    Err(io::Error::from(ErrorKind::AlreadyExists))
}

/// Whether a file that was opened still has its name. Before it was locked, another process may have taken it away, and made its own.
fn is_named(rt: &HostRuntime, file: &File, name: &str) -> bool {
    match (file.metadata(), fs::symlink_metadata(rt, name)) {
        (Ok(it), Ok(named)) => it.dev() == named.dev() && it.ino() == named.ino(),
        _ => false,
    }
}

impl Draft {
    /// Takes a file's place, with its mode and these bytes. The mode comes first, so that nobody reads in the draft what the file kept from them.
    fn take_place(
        &mut self,
        rt: &HostRuntime,
        of: &str,
        mode: Option<Permissions>,
        bytes: &[u8],
    ) -> io::Result<()> {
        if let Some(mode) = mode {
            self.file.set_permissions(mode)?;
        }
        self.file.write_all(bytes)?;
        fs::rename(rt, self.name.as_str(), of)
    }
}
