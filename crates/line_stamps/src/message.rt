//! Messages between cores and slices.

ghost use Rattle.std.specs.Prelude.{◌≡◌};
ghost use Rattle.line_stamps.specs.Messages.{addr_of};

use super::line::Line;
use super::stamp::Stamp;
use mem_op::{Addr, CoreId};
use std::marker::Model;

/// What a core asks of a slice or gives back to it.
#[derive(Clone, Copy, Debug, PartialEq, Eq)]
pub enum Message {
    /// SH_REQ: wants to read at `pts`; `copy` is the `wts` of the copy that it has.
    ShReq {
        addr: Addr,
        copy: Option<Stamp>,
        pts: Stamp,
    },
    /// EX_REQ: wants to write; `copy` is the `wts` of the copy that it has.
    ExReq {
        addr: Addr,
        copy: Option<Stamp>,
    },
    /// WB_REP: gives an Exclusive line back and keeps it as Shared.
    WbRep {
        addr: Addr,
        line: Line,
    },
    /// FLUSH_REP: gives an Exclusive line back and drops it.
    FlushRep {
        addr: Addr,
        line: Line,
    },
}

impl Message {
    /// The address of its line.
    pub fn addr(&self) -> Addr
        ensures { result ≡ addr_of self.now }
    {
        match self {
            Message::ShReq { addr, .. } => *addr,
            Message::ExReq { addr, .. } => *addr,
            Message::WbRep { addr, .. } => *addr,
            Message::FlushRep { addr, .. } => *addr,
        }
    }
}

/// How the owner should give a line back.
#[derive(Clone, Copy, Debug, PartialEq, Eq)]
pub enum RecallKind {
    /// `wb`: by WB_REP.
    WriteBack,
    /// `flush`: by FLUSH_REP.
    Flush,
}

/// A hint to an owner that somebody wants its line.
#[derive(Clone, Copy, Debug, PartialEq, Eq)]
pub struct Recall {
    /// Up to when somebody wants to read the line; 0, and unused, for a flush.
    pub rts: Stamp,
    /// The line's address.
    pub addr: Addr,
    /// The core that owns the line.
    pub owner: CoreId,
    /// How the owner should give it back.
    pub kind: RecallKind,
}

impl Model for Recall {
    ghost use Rattle.line_stamps.specs.RecallParts.{RecallParts};

    ghost Value = { RecallParts };

    ghost view = { λ r. record { rts = r.rts; addr = r.addr; owner = r.owner; kind = r.kind } };

    ghost inverse = { λ r. record { rts = r.rts; addr = r.addr; owner = r.owner; kind = r.kind } };
}

/// What a slice answers.
#[derive(Clone, Copy, Debug, PartialEq, Eq)]
pub enum Reply {
    /// SH_REP: the line, to read.
    ShRep(Line),
    /// EX_REP: the line, to write.
    ExRep(Line),
    /// RENEW_REP: the copy is still good, up to this `rts`.
    RenewRep(Stamp),
    /// UPGRADE_REP: the copy is still good, up to this `rts`, and may be written.
    UpgradeRep(Stamp),
    /// The slice took the line back.
    Taken,
    /// The slice can't serve the request yet: offer this recall to the owner that it names, and ask again.
    Busy(Recall),
}
