//! The row of the manager's table that a message meets. A row is wide, so one function makes it, and isn't inlined.

ghost use Rattle.std.specs.Prelude.{◌≡◌, ◌+◌, ◌<◌, ◌≢◌, length, if◌then◌else◌, nat_lt, nat_eq, Some, None, IfSome};
ghost use Rattle.std.specs.Map.{lookup};
ghost use Rattle.manager_slice.specs.Lines.{giving_way};
ghost use Rattle.manager_slice.specs.Table.{is_copy};
ghost use Rattle.manager_slice.specs.Rows.{row_of, give_back_row, request_row, recall_row, answer_row, absent_row, makes_way};
ghost use Rattle.memory_stamp.specs.Memory.{filled_line, with_line};

use super::fault::SliceFault;
use super::managed::ManagedLine;
use super::state::SliceState;
use lease_rule::{Config, renewed_rts};
use line_stamps::{Line, LineStamps, Message, Recall, RecallKind, Reply, Stamp};
use mem_op::{Addr, CoreId};

/// How a core wants a line.
#[derive(Clone, Copy, Debug, PartialEq, Eq)]
pub(crate) enum Access {
    /// To read it at this stamp of its own.
    Read(Stamp),
    /// To write it.
    Write,
}

/// A core's request for a line.
#[derive(Clone, Copy, Debug, PartialEq, Eq)]
pub(crate) struct Request {
    /// The core that makes the request.
    from: CoreId,
    /// The address of the line.
    addr: Addr,
    /// The `wts` of the core's copy, if it has one.
    copy: Option<Stamp>,
    /// How it wants the line.
    access: Access,
}

/// The row of the table that a message meets.
#[derive(Clone, Copy, Debug, PartialEq, Eq)]
pub(crate) enum Row {
    /// The answer is Busy with this recall, and nothing changes.
    Recalled(Recall),
    /// The line of the address `evicted.0`, if there is one, goes to memory. Then the message gets this reply, and its line
    /// becomes this one.
    Answered {
        evicted: Option<(Addr, Line)>,
        reply: Reply,
        line: ManagedLine,
    },
}

/// The row that a message meets; 11 if it gives back a line that isn't the sender's, 4 if the reply would carry a stamp
/// above the limit.
#[inline(never)]
pub(crate) fn row_of(
    config: &Config,
    state: &SliceState,
    from: CoreId,
    message: &Message,
) -> Result<Row, SliceFault>
    ensures { result ≡ row_of config.now state.now from message.now }
{
    let request = match message {
        Message::ShReq { addr, copy, pts } => Request {
            from,
            addr: *addr,
            copy: *copy,
            access: Access::Read(*pts),
        },
        Message::ExReq { addr, copy } => Request {
            from,
            addr: *addr,
            copy: *copy,
            access: Access::Write,
        },
        Message::WbRep { addr, line } => return give_back_row(state, from, *addr, line),
        Message::FlushRep { addr, line } => return give_back_row(state, from, *addr, line),
    };
    request_row(config, state, &request)
}

#[inline(always)]
fn give_back_row(
    state: &SliceState,
    from: CoreId,
    addr: Addr,
    line: &Line,
) -> Result<Row, SliceFault>
    ensures { result ≡ give_back_row from line.now (lookup (nat_eq addr) state.now.lines) }
{
    let Some(ManagedLine::Exclusive(owner)) = state.lines.get(addr) else {
        return Err(SliceFault::NotOwner);
    };
    if *owner != from {
        return Err(SliceFault::NotOwner);
    }
    Ok(Row::Answered {
        evicted: None,
        reply: Reply::Taken,
        line: ManagedLine::Shared(*line),
    })
}

#[inline(always)]
fn request_row(config: &Config, state: &SliceState, request: &Request) -> Result<Row, SliceFault>
    ensures { result ≡ request_row config.now state.now request.now
        (lookup (nat_eq request.now.addr) state.now.lines) }
{
    match state.lines.get(request.addr) {
        Some(ManagedLine::Exclusive(owner)) => recall_row(config, request, *owner),
        Some(ManagedLine::Shared(line)) => answer_row(config, request, &None, line),
        None => absent_row(config, state, request),
    }
}

fn absent_row(config: &Config, state: &SliceState, request: &Request) -> Result<Row, SliceFault>
    requires { lookup (nat_eq request.now.addr) state.now.lines ≡ None }
    ensures { result ≡ absent_row config.now state.now request.now
        (makes_way config.now state.now) }
{
    match &makes_way(config, state) {
        None => answer_row(config, request, &None, &state.memory.fill(request.addr)),
        Some((victim, ManagedLine::Shared(line))) => {
            let filled = fill_after(state, request.addr, *victim, line);
            answer_row(config, request, &Some((*victim, *line)), &filled)
        }
        Some((wanted, ManagedLine::Exclusive(owner))) => Ok(Row::Recalled(Recall {
            rts: Stamp::ZERO,
            addr: *wanted,
            owner: *owner,
            kind: RecallKind::Flush,
        })),
    }
}

// The line that must give way before one more fits, if one must.
fn makes_way(config: &Config, state: &SliceState) -> Option<(Addr, ManagedLine)>
    ensures value { result ≡ makes_way config.now state.now }
    ensures there { IfSome result (λ e. lookup (nat_eq e.0) state.now.lines ≡ Some e.1) }
{
    if state.lines.len() < config.slice_lines() {
        return None;
    }
    state.lines.giving_way()
}

// The line that comes from memory after the eviction of another.
fn fill_after(state: &SliceState, addr: Addr, victim: Addr, evicted: &Line) -> Line
    requires { addr ≢ victim }
    ensures { result ≡ filled_line (with_line state.now.memory victim evicted.now) addr }
{
    let line = state.memory.fill(addr);
    let mts = line.stamps().rts.max(evicted.stamps().rts);
    let mrank = line.stamps().wr.max(evicted.stamps().wr);
    line.with_stamps(LineStamps::at(mts, mrank))
}

fn recall_row(config: &Config, request: &Request, owner: CoreId) -> Result<Row, SliceFault>
    ensures { result ≡ recall_row config.now request.now.addr request.now.access owner }
{
    let (kind, rts) = match &request.access {
        Access::Read(pts) => (
            RecallKind::WriteBack,
            pts.plus(config.lease())
                .map_err(|_| SliceFault::StampLimit)?,
        ),
        Access::Write => (RecallKind::Flush, Stamp::ZERO),
    };
    Ok(Row::Recalled(Recall {
        rts,
        addr: request.addr,
        owner,
        kind,
    }))
}

#[inline(always)]
fn answer_row(
    config: &Config,
    request: &Request,
    evicted: &Option<(Addr, Line)>,
    line: &Line,
) -> Result<Row, SliceFault>
    ensures { result ≡ answer_row config.now request.now evicted.now request.now.access line.now }
{
    let current = is_copy(&request.copy, line);
    match &request.access {
        Access::Read(pts) => {
            let Ok(rts) = renewed_rts(line.stamps(), *pts, config.lease()) else {
                return Err(SliceFault::StampLimit);
            };
            let leased = line.with_stamps(line.stamps().leased_to(rts));
            let reply = if current {
                Reply::RenewRep(rts)
            } else {
                Reply::ShRep(leased)
            };
            Ok(Row::Answered {
                evicted: *evicted,
                reply,
                line: ManagedLine::Shared(leased),
            })
        }
        Access::Write => {
            let reply = if current {
                Reply::UpgradeRep(line.stamps().rts)
            } else {
                Reply::ExRep(*line)
            };
            Ok(Row::Answered {
                evicted: *evicted,
                reply,
                line: ManagedLine::Exclusive(request.from),
            })
        }
    }
}

// Whether a request's copy has the line's version.
fn is_copy(copy: &Option<Stamp>, line: &Line) -> bool
    ensures { result ≡ is_copy copy.now line.now }
{
    match copy {
        Some(wts) => *wts == line.stamps().wts,
        None => false,
    }
}
