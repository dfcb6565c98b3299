//! Runs in threads that come to their ends, and runs that don't.

ghost use Rattle.std.specs.Prelude.{◌<◌};

use super::paces::{Always, Kept, StopsCore0};
use super::values::*;
use audit::{Cause, MachineFault, RunEnd};
use core_program::ProgramSet;
use core_unit::CoreUnit;
use lease_rule::Config;
use line_stamps::{Line, LineStamps, Rank, Reply};
use log_file::{MemSource, print_log};
use log_record::Format;
use machine::{Pace, run_threads};
use manager_slice::HistoryEntry;
use mem_op::{CoreId, Source};
use std::alloc::Global;
use std::sync::Wait;
use std::test::Fail;
use std::thread::Threads;
use verdict::{OpenGate, Verdict, judge};

/// What a run in threads comes to, on this many slices and with this many turns for an operation.
fn ran<P: Pace + Sync, R: Threads + Wait + Sync>(
    rt: &R,
    alloc: Global,
    text: &[u8],
    (slices, turns): (u64, u64),
    pace: &P,
) -> Result<Result<RunEnd, MachineFault>, Fail> {
    let programs = ProgramSet::parse(alloc, text)?;
    let config = Config::new(slices, 10, 100, 64, 64, 8, turns)?;
    Ok(run_threads(rt, alloc, &programs, &config, pace))
}

/// Two cores, each of which stores and then loads what the other stores.
const CROSSING: &[u8] =
    b"tardis-programs 1 cores 2\ncore 0\nst 0 1\nld r0 1\ncore 1\nst 1 1\nld r0 0\nend\n";

// Each core goes on only when the other has performed its first operation too.
#[test]
fn two_cores_at_once(rt: HostRuntime) -> Result<(), Fail> {
    let end = ran(&rt, rt.alloc(), CROSSING, (1, 10_000_000), &Kept::until(1))?;
    assert!(rt; end.is_ok());
    Ok(())
}

#[test]
fn as_many_cores_and_slices_as_there_may_be(rt: HostRuntime) -> Result<(), Fail> {
    let mut text = String::new(rt.alloc());
    writeln!(text, "tardis-programs 1 cores 64")?;
    for number in 0..64 {
        writeln!(text, "core {number}\nst {number} 7\nld r0 5\nst 3 {number}")?;
    }
    writeln!(text, "end")?;
    let end = ran(&rt, rt.alloc(), text.as_bytes(), (16, 10_000_000), &Always)?;
    assert!(rt; end.is_ok());
    Ok(())
}

/// Stores whose addresses neither ascend nor descend.
const SCATTERED: &[u8] = b"tardis-programs 1 cores 1\ncore 0\nst 5 1\nst 9 1\nst 2 1\nend\n";

/// The core gets the line of an address as its owner.
fn owns(number: u16) -> HistoryEntry {
    HistoryEntry::Served(core(0), write(number, None), Reply::ExRep(initial(0, 0)))
}

/// The line of an address goes back as the core's operation of this index left it.
fn goes_back(number: u16, index: usize) -> HistoryEntry
    requires { index < 1048576 }
{
    let stamps = LineStamps::at(stamp(1), Rank::ZERO);
    let line = Line::new(1, Source::Store(id(index)), stamps);
    HistoryEntry::Served(core(0), flushed(number, line), Reply::Taken)
}

#[test]
fn lines_go_back_in_the_order_of_their_addresses(rt: HostRuntime) -> Result<(), Fail> {
    let end = ran(&rt, rt.alloc(), SCATTERED, (1, 1_000), &Always)?;
    let Ok(RunEnd { slices, .. }) = &end else {
        return Err(Fail::from("the run comes to its end"));
    };
    let entries = [
        owns(5),
        owns(9),
        owns(2),
        goes_back(2, 2),
        goes_back(5, 0),
        goes_back(9, 1),
    ];
    let slice = slices.first().ok_or("slice 0 is there")?;
    assert_eq!(rt; slice.history(), entries.as_slice());
    Ok(())
}

/// The fault of a run of two cores.
fn fault_of<P: Pace + Sync, R: Threads + Wait + Sync>(
    rt: &R,
    alloc: Global,
    text: &[u8],
    turns: u64,
    pace: &P,
) -> Result<MachineFault, Fail> {
    match ran(rt, alloc, text, (1, turns), pace)? {
        Ok(_) => Err(Fail::from("the run doesn't come to its end")),
        Err(fault) => Ok(fault),
    }
}

/// The text of the log of one of two cores.
fn log_text(alloc: Global, number: usize, units: &[CoreUnit]) -> Result<Vec<u8>, Fail> {
    let records = units.get(number).ok_or("the core is there")?.log();
    if number >= 2 || records.len() > 2 {
        return Err(Fail::from("two operations at most"));
    }
    let text = print_log(alloc, Format::One, CoreId::at(number), 2, records)?;
    Ok(text.into_bytes())
}

// Core 0 stops after its first operation. Core 1 goes on to its end, and what both did is consistent. The fault has the slice that both asked.
#[test]
fn a_core_that_is_stopped(rt: HostRuntime) -> Result<(), Fail> {
    let fault = fault_of(&rt, rt.alloc(), CROSSING, 10_000_000, &StopsCore0)?;
    assert_eq!(rt; (fault.core, fault.cause), (0, Cause::Stopped));
    let zero = log_text(rt.alloc(), 0, fault.units.as_slice())?;
    let one = log_text(rt.alloc(), 1, fault.units.as_slice())?;
    let mut logs = [MemSource::new(&zero, &[]), MemSource::new(&one, &[])];
    let verdict = judge(&rt, rt.alloc(), &mut logs, 1, &OpenGate)?;
    assert_eq!(rt; verdict, Verdict::Yes(3));
    let slice = fault.slices.first().ok_or("slice 0 is there")?;
    assert!(rt; !slice.history().is_empty());
    Ok(())
}

/// Core 1 wants the line that core 0 stored to.
const WAITING: &[u8] =
    b"tardis-programs 1 cores 2\ncore 0\nst 0 1\nst 0 2\ncore 1\nst 1 1\nld r0 0\nend\n";

// Core 0 keeps the line until core 1 is at its last turn.
#[test]
fn a_core_that_gives_up(rt: HostRuntime) -> Result<(), Fail> {
    let fault = fault_of(&rt, rt.alloc(), WAITING, 1_000, &Kept::until(1_000))?;
    assert_eq!(rt; (fault.core, fault.cause), (1, Cause::GaveUp));
    let logs = (fault.log(core(0)).len(), fault.log(core(1)).len());
    assert_eq!(rt; logs, (2, 1));
    Ok(())
}
