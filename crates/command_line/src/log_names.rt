//! The names of a run's logs.

ghost use Rattle.std.specs.Prelude.{◌↔◌, Contains, IfOk, IsTrue};
ghost use Rattle.clap.specs.Words.{Text};
ghost use Rattle.command_line.specs.Asking.{texts};
ghost use Rattle.command_line.specs.RunFiles.{IsLogName};

use std::alloc::{AllocError, Global};

/// The most cores.
const CORE_LIMIT: u64 = 64;

/// Whether one of these names is that of a log: that of the logs, a dot and a core's number. Err if memory was refused.
pub(crate) fn has_log_name(alloc: Global, out: &str, names: &[&str]) -> Result<bool, AllocError>
    ensures { IfOk result (λ has. IsTrue has ↔ ((name : Text) × Contains (texts names.now) name × IsLogName out.now name)) }
{
    for core in 0..CORE_LIMIT {
        let log = format!(in alloc; "{out}.{core}")?;
        if is_among(log.as_str(), names) {
            return Ok(true);
        }
    }
    Ok(false)
}

/// Whether one of these names is this one.
pub(crate) fn is_among(name: &str, names: &[&str]) -> bool
    ensures { IsTrue result ↔ Contains (texts names.now) name.now }
{
    for other in names {
        if *other == name {
            return true;
        }
    }
    false
}
