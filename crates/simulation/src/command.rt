//! Commands of a schedule.

use line_stamps::{Recall, RecallKind};
use mem_op::{Addr, CoreId};
use std::fmt;
use std::fmt::Display;

/// A command of a schedule.
#[derive(Clone, Copy, Debug, PartialEq, Eq)]
pub enum Command {
    /// `turn c`: a turn of a core.
    Turn(CoreId),
    /// `serve c`: a core's message is served.
    Serve(CoreId),
    /// `take c`: a core takes its reply.
    Take(CoreId),
    /// `recall c a wb t` or `recall c a flush t`: a recall comes to its owner, the core.
    Recall(Recall),
    /// `evict c a`: a core evicts an address.
    Evict(CoreId, Addr),
    /// `spill a`: the slice of an address evicts it, if it is Shared.
    Spill(Addr),
    /// `bump c`: one self-increment of a core.
    Bump(CoreId),
    /// `round c`: one round of a core.
    Round(CoreId),
    /// `op c`: rounds of a core until it has performed one more operation or has ended.
    Op(CoreId),
    /// `finish c`: `op c` until the core has ended.
    Finish(CoreId),
}

/// Its line in a schedule, without the line feed.
impl Display for Command {
    ghost use Rattle.std.specs.Prelude.{Some};
    ghost use Rattle.simulation.specs.CommandTexts.{command_text};

    ghost output = { λ command. Some (command_text command) };

    #[tactic(auto, using(decimal_text::proofs::Printing::numeral_decimal), unfolding(crate::specs::CommandTexts::command_text))]
    fn fmt<W: fmt::Write>(&self, f: &mut fmt::Formatter<W>) -> fmt::Result {
        match self {
            Command::Turn(core) => write!(f, "turn {}", core.get()),
            Command::Serve(core) => write!(f, "serve {}", core.get()),
            Command::Take(core) => write!(f, "take {}", core.get()),
            Command::Recall(recall) => {
                let (owner, addr, rts) = (recall.owner.get(), recall.addr.get(), recall.rts.get());
                match recall.kind {
                    RecallKind::WriteBack => write!(f, "recall {owner} {addr} wb {rts}"),
                    RecallKind::Flush => write!(f, "recall {owner} {addr} flush {rts}"),
                }
            }
            Command::Evict(core, addr) => write!(f, "evict {} {}", core.get(), addr.get()),
            Command::Spill(addr) => write!(f, "spill {}", addr.get()),
            Command::Bump(core) => write!(f, "bump {}", core.get()),
            Command::Round(core) => write!(f, "round {}", core.get()),
            Command::Op(core) => write!(f, "op {}", core.get()),
            Command::Finish(core) => write!(f, "finish {}", core.get()),
        }
    }
}
