//! Why a command line asks for nothing.

use std::alloc::AllocError;

/// Why a command line asks for nothing.
#[derive(Drop)]
pub enum Misuse {
    /// The words aren't a command line of the program, or call for help: what to tell the user,
    /// each line with its line feed.
    Usage(String),
    /// Memory ran out.
    OutOfMemory,
}

impl From<AllocError> for Misuse {
    ghost use Rattle.std.specs.Prelude.{◌≡◌};
    ghost use Rattle.command_line.specs.declared.misuse.Misuse.TheVariants.{OutOfMemory};

    ghost from_gives = { λ _ misuse. misuse ≡ OutOfMemory };

    fn from(_error: AllocError) -> Misuse {
        Misuse::OutOfMemory
    }
}
