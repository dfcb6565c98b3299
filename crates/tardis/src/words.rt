//! The words of the command line, as the host gives them.

ghost use Rattle.std.specs.Prelude.{◌≡◌, IfOk, map, string_bytes};
ghost use Rattle.tardis.specs.Words.{words_fault_status};
ghost use Rattle.tardis.specs.declared.words.WordsFault.TheVariants.{OutOfMemory};

use mem_op::FaultName;
use std::alloc::{AllocFailed, Global};
use std::io::ErrorKind;
use std::{env, fmt, io};

/// Why the words of the command line can't be read.
#[derive(Clone, Copy)]
pub(crate) enum WordsFault {
    /// One of them isn't UTF-8.
    NotText,
    /// There is no memory for them.
    OutOfMemory,
}

impl WordsFault {
    /// The exit status: 3, as for other words that aren't a command line, or 4 if memory was refused.
    pub(crate) fn status(self) -> u8
        ensures { result ≡ words_fault_status self }
    {
        match self {
            WordsFault::NotText => 3,
            WordsFault::OutOfMemory => 4,
        }
    }
}

impl fmt::Display for WordsFault {
    ghost use Rattle.std.specs.Prelude.{Some};
    ghost use Rattle.tardis.specs.Words.{words_fault_text};

    ghost output = { λ fault. Some (words_fault_text fault) };

    fn fmt<W: fmt::Write>(&self, f: &mut fmt::Formatter<W>) -> fmt::Result {
        match self {
            WordsFault::NotText => {
                f.write_str("error: invalid UTF-8 was detected in one or more arguments")
            }
            WordsFault::OutOfMemory => write!(f, "refused: {}", FaultName::OutOfMemory),
        }
    }
}

impl<T: Drop> From<AllocFailed<T>> for WordsFault {
    ghost from_gives = { λ _ fault. fault ≡ OutOfMemory };

    fn from(_failed: AllocFailed<T>) -> WordsFault {
        WordsFault::OutOfMemory
    }
}

impl From<io::Error> for WordsFault {
    fn from(error: io::Error) -> WordsFault {
        match error.kind() {
            ErrorKind::InvalidData => WordsFault::NotText,
            _ => WordsFault::OutOfMemory,
        }
    }
}

/// The words that the program was called with; the first is its own name.
pub(crate) fn words(rt: &HostRuntime) -> Result<Vec<String>, WordsFault> {
    let mut words = Vec::new(rt.alloc());
    for word in env::args(rt)? {
        words.push(word)?;
    }
    Ok(words)
}

/// The texts of words.
pub(crate) fn texts(alloc: Global, words: &[String]) -> Result<Vec<&str>, WordsFault>
    ensures { IfOk result (λ texts. map (λ text. text.now) texts.items ≡ map string_bytes words.now) }
{
    let mut texts = Vec::new(alloc);
    for word in words {
        texts.push(word.as_str())?;
    }
    Ok(texts)
}
