//! The worked rows of `docs/protocol`, call by call. A call whose growth is refused answers 10 and changes nothing; made again with memory, it
//! answers as in the row. No growth is refused here: `refuse-growths` refuses each in turn.

ghost use Rattle.std.specs.Prelude.{◌<◌};

use super::values::*;
use core_program::ProgramSet;
use core_unit::Outcome;
use lease_rule::Config;
use line_stamps::{Line, LineStamps, Message, Rank, Recall, RecallKind, Reply, Stamp, StampFault};
use manager_slice::{HistoryEntry, ManagerSlice, SliceFault};
use mem_op::Source;
use private_cache::{FillFault, PrivateCache, Read, Store};
use std::process::Abort;
use std::test::Fail;
use tardis_core::{Core, CoreFault, Event, UnitFault, run};

/// Fills the line of address 0.
fn fill(cache: &mut PrivateCache, reply: &Reply) -> Result<(), FillFault> {
    let filled = cache.fill(addr(0), reply);
    if filled == Err(FillFault::OutOfMemory) {
        return cache.fill(addr(0), reply);
    }
    filled
}

/// Stores a value at address 0, by the operation of this index, of a core at this stamp and rank 0.
fn store(cache: &mut PrivateCache, value: u64, index: usize, pts: u32) -> Result<Store, StampFault>
    requires { index < 1048576 }
{
    cache.store(addr(0), value, id(index), stamp(pts), Rank::ZERO)
}

/// What a store that hits at this stamp answers.
fn hit(at: u32, rank: Rank) -> Result<Store, StampFault> {
    let stamp = stamp(at);
    Ok(Store::Hit { stamp, rank })
}

#[test]
fn a_line_in_a_cache_of_one(rt: HostRuntime) -> Result<(), Fail> {
    let mut cache = PrivateCache::new(rt.alloc(), &Config::new(1, 10, 100, 1, 64, 8, 1_000)?)?;
    let missed = Ok(Store::Miss(write(0, None)));
    assert_eq!(rt; store(&mut cache, 1, 0, 0), missed);
    assert_eq!(rt; fill(&mut cache, &Reply::ExRep(initial(0, 0))), Ok(()));
    assert_eq!(rt; store(&mut cache, 1, 0, 0), hit(1, Rank::ZERO));
    let one = Rank::new(1)?;
    assert_eq!(rt; store(&mut cache, 2, 1, 1), hit(1, one));
    assert_eq!(rt; cache.victim(addr(1)), Some(addr(0)));
    assert_eq!(rt; cache.victim(addr(0)), None);
    let recall = recall(0, 0, RecallKind::WriteBack, 22);
    let stamps = LineStamps::at(stamp(1), one).leased_to(stamp(22));
    let line = Line::new(2, Source::Store(id(1)), stamps);
    let addr = addr(0);
    let given = Message::WbRep { addr, line };
    assert_eq!(rt; cache.recall(&recall, 10), Ok(Some(given)));
    assert_eq!(rt; cache.recall(&recall, 10), Ok(None));
    is_read_and_upgraded(&rt, &mut cache);
    Ok(())
}

/// What the load of the row answers.
fn load(cache: &mut PrivateCache) -> Result<Read, StampFault> {
    cache.load(addr(0), stamp(23), Rank::ZERO)
}

/// The rest of the row, from the load on.
fn is_read_and_upgraded(rt: &impl Abort, cache: &mut PrivateCache) {
    let missed = Read::Miss(read(0, Some(stamp(1)), stamp(23)));
    assert_eq!(rt; load(cache), Ok(missed));
    let early = fill(cache, &Reply::RenewRep(stamp(0)));
    assert_eq!(rt; early, Err(FillFault::BadReply));
    assert_eq!(rt; fill(cache, &Reply::RenewRep(stamp(33))), Ok(()));
    let loaded = Read::Hit {
        value: 2,
        source: Source::Store(id(1)),
        stamp: stamp(23),
        rank: Rank::ZERO,
    };
    assert_eq!(rt; load(cache), Ok(loaded));
    let missed = Store::Miss(write(0, Some(stamp(1))));
    assert_eq!(rt; store(cache, 3, 2, 23), Ok(missed));
    assert_eq!(rt; fill(cache, &Reply::UpgradeRep(stamp(33))), Ok(()));
    assert_eq!(rt; store(cache, 3, 2, 23), hit(34, Rank::ZERO));
}

#[test]
fn the_greatest_stamp_and_rank(rt: HostRuntime) -> Result<(), Fail> {
    let stamp = Stamp::new(281_474_976_710_656)?;
    assert_eq!(rt; stamp.plus(0), Ok(stamp));
    assert_eq!(rt; stamp.plus(1), Err(StampFault::StampLimit));
    let rank = Rank::new(4_294_967_295)?;
    assert_eq!(rt; rank.next(), Err(StampFault::RankLimit));
    Ok(())
}

#[test]
fn a_slice_of_one_line(rt: HostRuntime) -> Result<(), Fail> {
    let config = Config::new(1, 10, 1_000, 64, 1, 64, 1_000)?;
    let mut slice = ManagerSlice::new(rt.alloc(), 0, &config)?;
    let greatest = Stamp::new(281_474_976_710_656)?;
    let (first, second) = (&read(0, None, stamp(0)), &write(1, None));
    let shared = &Reply::ShRep(initial(0, 10));
    let owned = &Reply::ExRep(initial(10, 10));
    let busy = Reply::Busy(recall(1, 1, RecallKind::Flush, 0));
    let rows = [
        (core(0), *first, Ok(*shared)),
        (core(1), *second, Ok(*owned)),
        (core(0), read(0, None, stamp(5)), Ok(busy)),
        (
            core(0),
            flushed(1, initial(10, 10)),
            Err(SliceFault::NotOwner),
        ),
        (
            core(0),
            read(1, None, greatest),
            Err(SliceFault::StampLimit),
        ),
    ];
    for (from, message, due) in &rows {
        let mut answer = slice.handle(*from, message);
        if answer == Err(SliceFault::OutOfMemory) {
            answer = slice.handle(*from, message);
        }
        assert_eq!(rt; answer, *due);
    }
    let entries = [
        HistoryEntry::Served(core(0), *first, *shared),
        HistoryEntry::Evicted(addr(0)),
        HistoryEntry::Served(core(1), *second, *owned),
    ];
    assert_eq!(rt; slice.history(), entries.as_slice());
    Ok(())
}

/// Whether memory was refused.
fn is_memory(fault: &CoreFault) -> bool {
    *fault == CoreFault::Unit(UnitFault::OutOfMemory)
        || *fault == CoreFault::Slice(SliceFault::OutOfMemory)
}

/// What an event comes to.
fn came(machine: &mut Core, event: &Event) -> Result<Outcome, CoreFault> {
    let first = machine.step(*event);
    if let Err(fault) = &first {
        if is_memory(fault) {
            return machine.step(*event);
        }
    }
    first
}

/// The recall by which the slice wants the core's own line back.
fn own() -> Recall {
    recall(0, 0, RecallKind::Flush, 0)
}

fn turn() -> Event {
    Event::Turn(core(0))
}

fn serve() -> Event {
    Event::Serve(core(0))
}

fn take() -> Event {
    Event::Take(core(0))
}

fn recalled() -> Event {
    Event::Recall(core(0), own())
}

/// The events of the row of the core machine.
fn events() -> [Event; 17] {
    [
        turn(),
        serve(),
        take(),
        turn(),
        turn(),
        serve(),
        take(),
        recalled(),
        recalled(),
        serve(),
        take(),
        recalled(),
        turn(),
        serve(),
        take(),
        turn(),
        turn(),
    ]
}

/// Checks that these events come to what the row says.
fn come(rt: &impl Abort, machine: &mut Core, events: &[Event]) {
    let stamps = LineStamps::at(stamp(1), Rank::ZERO);
    let given = flushed(0, Line::new(1, Source::Store(id(0)), stamps));
    let outcomes = [
        Outcome::Sent(write(0, None)),
        Outcome::Served(Reply::ExRep(initial(0, 0))),
        Outcome::Took,
        Outcome::Performed(id(0)),
        Outcome::Sent(read(1, None, stamp(1))),
        Outcome::Served(Reply::Busy(own())),
        Outcome::Busy(own()),
        Outcome::Gave(given),
        Outcome::NoEffect,
        Outcome::Served(Reply::Taken),
        Outcome::Took,
        Outcome::NoEffect,
        Outcome::Sent(read(1, None, stamp(1))),
        Outcome::Served(Reply::ShRep(initial(1, 11))),
        Outcome::Took,
        Outcome::Performed(id(1)),
        Outcome::Ended,
    ];
    for (event, due) in events.iter().zip(&outcomes) {
        assert_eq!(rt; came(machine, event), Ok(*due));
    }
}

#[test]
fn a_machine_of_one_line(rt: HostRuntime) -> Result<(), Fail> {
    let text = b"tardis-programs 1 cores 1\ncore 0\nst 0 1\nld r0 1\nend\n";
    let programs = ProgramSet::parse(rt.alloc(), text)?;
    let config = Config::new(1, 10, 100, 64, 1, 8, 1_000)?;
    let mut machine = Core::new(rt.alloc(), &programs, &config)?;
    let events = events();
    come(&rt, &mut machine, &events);
    let again = run(rt.alloc(), &programs, &config, &events)?;
    for machine in [&machine, &again] {
        let unit = machine.unit(core(0)).ok_or("core 0 is there")?;
        assert_eq!(rt; (unit.log().len(), unit.transcript().len()), (2, 6));
        let slice = machine.slices().first().ok_or("slice 0 is there")?;
        assert_eq!(rt; slice.state().memory.mts, stamp(1));
    }
    Ok(())
}
