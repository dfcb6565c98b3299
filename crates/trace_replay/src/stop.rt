//! Why the replay of a trace's lines stops.

ghost use Rattle.std.specs.Prelude.{◌≡◌};
ghost use Rattle.trace_replay.specs.declared.fault.ReplayFault.TheVariants.{OutOfMemory, Read};
ghost use Rattle.trace_replay.specs.declared.stop.Stop.TheVariants.{Refused};

use super::fault::ReplayFault;
use super::wrong_load::WrongLoad;
use log_file::ReadFailed;
use std::alloc::AllocError;

/// Why the replay of a trace's lines stops.
#[derive(Clone, Copy)]
pub(crate) enum Stop {
    /// A load that didn't read the last store to its address.
    Wrong(WrongLoad),
    /// A refusal.
    Refused(ReplayFault),
}

impl From<AllocError> for Stop {
    ghost from_gives = { λ _ stop. stop ≡ Refused OutOfMemory };

    fn from(_: AllocError) -> Stop {
        Stop::Refused(ReplayFault::OutOfMemory)
    }
}

impl From<ReadFailed> for Stop {
    ghost from_gives = { λ _ stop. stop ≡ Refused Read };

    fn from(_: ReadFailed) -> Stop {
        Stop::Refused(ReplayFault::Read)
    }
}
