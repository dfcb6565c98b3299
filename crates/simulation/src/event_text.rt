//! How the table of a run's events spells what comes of an event.

use super::command::Command;
use core_unit::Outcome;
use line_stamps::{Line, Message, Recall, Reply, Stamp};
use log_record::Record;
use mem_op::Source;
use std::fmt;
use std::fmt::Display;

/// The outcome of an event, and the record of the operation that it performed, if it performed one.
#[derive(Clone, Copy)]
pub(crate) struct OutcomeText<'a> {
    pub(crate) outcome: &'a Outcome,
    pub(crate) made: Option<&'a Record>,
}

/// Its name, and what it tells: for an operation, its id and its record as a log has it.
impl<'a> Display for OutcomeText<'a> {
    fn fmt<W: fmt::Write>(&self, f: &mut fmt::Formatter<W>) -> fmt::Result {
        match self.outcome {
            Outcome::Performed(id) => match self.made {
                Some(record) => write!(f, "Performed {id} {record}"),
                None => write!(f, "Performed {id}"),
            },
            Outcome::Dropped(addr) => write!(f, "Dropped {}", addr.get()),
            Outcome::Sent(message) => write!(f, "Sent {}", MessageText { message }),
            Outcome::Ended => f.write_str("Ended"),
            Outcome::Took => f.write_str("Took"),
            Outcome::Busy(recall) => write!(f, "Busy {}", Command::Recall(*recall)),
            Outcome::Gave(message) => write!(f, "Gave {}", MessageText { message }),
            Outcome::Bumped => f.write_str("Bumped"),
            Outcome::Served(reply) => write!(f, "Served {}", ReplyText { reply }),
            Outcome::Spilled => f.write_str("Spilled"),
            Outcome::NoEffect => f.write_str("NoEffect"),
        }
    }
}

/// A message, with the address of its line.
#[derive(Clone, Copy)]
struct MessageText<'a> {
    message: &'a Message,
}

impl<'a> Display for MessageText<'a> {
    fn fmt<W: fmt::Write>(&self, f: &mut fmt::Formatter<W>) -> fmt::Result {
        let addr = self.message.addr().get();
        match self.message {
            Message::ShReq { copy, pts, .. } => {
                write!(f, "SH_REQ {addr} {} pts {}", CopyText { copy }, pts.get())
            }
            Message::ExReq { copy, .. } => write!(f, "EX_REQ {addr} {}", CopyText { copy }),
            Message::WbRep { line, .. } => write!(f, "WB_REP {addr} {}", LineText { line }),
            Message::FlushRep { line, .. } => write!(f, "FLUSH_REP {addr} {}", LineText { line }),
        }
    }
}

/// A reply.
#[derive(Clone, Copy)]
struct ReplyText<'a> {
    reply: &'a Reply,
}

impl<'a> Display for ReplyText<'a> {
    fn fmt<W: fmt::Write>(&self, f: &mut fmt::Formatter<W>) -> fmt::Result {
        match self.reply {
            Reply::ShRep(line) => write!(f, "SH_REP {}", LineText { line }),
            Reply::ExRep(line) => write!(f, "EX_REP {}", LineText { line }),
            Reply::RenewRep(rts) => write!(f, "RENEW_REP rts {}", rts.get()),
            Reply::UpgradeRep(rts) => write!(f, "UPGRADE_REP rts {}", rts.get()),
            Reply::Taken => f.write_str("Taken"),
            Reply::Busy(recall) => write!(f, "Busy {}", Command::Recall(*recall)),
        }
    }
}

/// The `wts` of the copy that a request tells of.
#[derive(Clone, Copy)]
struct CopyText<'a> {
    copy: &'a Option<Stamp>,
}

impl<'a> Display for CopyText<'a> {
    fn fmt<W: fmt::Write>(&self, f: &mut fmt::Formatter<W>) -> fmt::Result {
        match self.copy {
            Some(wts) => write!(f, "copy {}", wts.get()),
            None => f.write_str("copy none"),
        }
    }
}

/// A line, as a message or a reply carries it.
#[derive(Clone, Copy)]
struct LineText<'a> {
    line: &'a Line,
}

impl<'a> Display for LineText<'a> {
    fn fmt<W: fmt::Write>(&self, f: &mut fmt::Formatter<W>) -> fmt::Result {
        let value = self.line.value();
        match &self.line.source() {
            Source::Init => write!(f, "value {value} of init")?,
            Source::Store(id) => write!(f, "value {value} of {id}")?,
        }
        let stamps = self.line.stamps();
        write!(
            f,
            " wts {} rts {} wr {}",
            stamps.wts.get(),
            stamps.rts.get(),
            stamps.wr.get()
        )
    }
}
