//! Numbers, lines and messages of the worked rows.

ghost use Rattle.std.specs.Prelude.{◌<◌};

use line_stamps::{Line, LineStamps, Message, Rank, Recall, RecallKind, Stamp};
use mem_op::{Addr, CoreId, OpId, OpIndex, Source};

/// The address of this number.
pub(super) fn addr(number: u16) -> Addr {
    Addr::new(u64::from(number)).unwrap()
}

/// The core of this number.
pub(super) fn core(number: usize) -> CoreId
    requires { number < 64 }
{
    CoreId::at(number)
}

/// The stamp of this number.
pub(super) fn stamp(number: u32) -> Stamp {
    Stamp::new(u64::from(number)).unwrap()
}

/// The id of an operation of core 0.
pub(super) fn id(index: usize) -> OpId
    requires { index < 1048576 }
{
    OpId {
        core: CoreId::at(0),
        index: OpIndex::at(index),
    }
}

/// A line with the value 0, which no store gave it.
pub(super) fn initial(wts: u32, rts: u32) -> Line {
    let stamps = LineStamps::at(stamp(wts), Rank::ZERO);
    Line::new(0, Source::Init, stamps.leased_to(stamp(rts)))
}

/// A request to read, with the copy that the core has and its stamp.
pub(super) fn read(number: u16, copy: Option<Stamp>, pts: Stamp) -> Message {
    let addr = addr(number);
    Message::ShReq { addr, copy, pts }
}

/// A request to write, with the copy that the core has.
pub(super) fn write(number: u16, copy: Option<Stamp>) -> Message {
    let addr = addr(number);
    Message::ExReq { addr, copy }
}

/// A line that its owner gave up.
pub(super) fn flushed(number: u16, line: Line) -> Message {
    let addr = addr(number);
    Message::FlushRep { addr, line }
}

/// A recall of the owner's line.
pub(super) fn recall(owner: usize, number: u16, kind: RecallKind, rts: u32) -> Recall
    requires { owner < 64 }
{
    Recall {
        rts: stamp(rts),
        addr: addr(number),
        owner: core(owner),
        kind,
    }
}
