//! Calls that the program doesn't make, or not in this way, each once. A call whose growth is refused answers 10 and nothing else: `refuse-growths`
//! refuses each in turn, and none is refused here.

ghost use Rattle.std.specs.Prelude.{◌<◌};

use address_check::{AddressIndex, group_fault};
use core_program::Program;
use flat_replay::replays;
use log_file::{LogReader, LogSet, MemSource, read_pieces};
use log_record::print_line;
use mem_op::{Addr, CoreId, OpId, OpIndex};
use refutation::{Answer, Refutation, confirm, first_bad_line, refutes};
use search::search;
use std::test::Fail;
use trace::{Trace, TraceReader};
use verdict::{accesses_of, replay_order};

/// Core 0 stores and loads; core 1 stores, and loads what core 0 stored.
const LOGS: [&str; 2] = [
    "tardis-log 1 core 0 of 2\nS 0 1 1 0\nL 1 0 1 0 init\nend 2\n",
    "tardis-log 1 core 1 of 2\nS 1 1 12 0\nL 0 1 12 0 0.0\nend 2\n",
];

/// Operation `index` of core `core`.
fn id(core: usize, index: usize) -> OpId
    requires core { core < 64 }
    requires index { index < 1048576 }
{
    OpId {
        core: CoreId::at(core),
        index: OpIndex::at(index),
    }
}

#[test]
fn a_set_of_logs(rt: HostRuntime) -> Result<(), Fail> {
    let alloc = rt.alloc();
    let mut readers = [
        MemSource::new(LOGS[0].as_bytes(), &[]),
        MemSource::new(LOGS[1].as_bytes(), &[]),
    ];
    let logs = LogSet::read(alloc, &mut readers)?.logs(alloc)?;
    let index = AddressIndex::build(&rt, alloc, &logs)?;
    let group = index.group(Addr::new(1)?);
    assert_eq!(rt;
        (index.all().len(), group.len(), group_fault(group)),
        (4, 2, None)
    );
    let order = [id(0, 0), id(0, 1), id(1, 0), id(1, 1)];
    assert!(rt; replay_order(alloc, &order, &logs)?);
    let exchanged = [id(0, 1), id(0, 0), id(1, 0), id(1, 1)];
    assert!(rt; !replay_order(alloc, &exchanged, &logs)?);
    let doubled = [id(0, 0), id(0, 1), id(1, 0), id(1, 0)];
    assert!(rt; !replay_order(alloc, &doubled, &logs)?);
    let written = order.iter().map(|id| id.core).collect(alloc)?;
    let trace = Trace::of(alloc, accesses_of(alloc, &logs)?)?.written_by(written);
    assert!(rt; replays(alloc, trace.cores(), &order)?);
    let answer = search(alloc, &trace, 0)?;
    assert!(rt; matches!(&answer, Answer::Order(_)));
    Ok(())
}

// A log in pieces, and byte by byte.
#[test]
fn a_log_in_pieces(rt: HostRuntime) -> Result<(), Fail> {
    let alloc = rt.alloc();
    let (core, text) = (CoreId::at(0), LOGS[0].as_bytes());
    let mut pieces = Vec::new(alloc);
    let mut reader = LogReader::new(alloc, core, 2);
    for byte in text {
        reader.feed(&[*byte])?;
        pieces.push(vec![in alloc; *byte]?)?;
    }
    let records = reader.finish()?;
    assert_eq!(rt; read_pieces(alloc, &pieces, core, 2)?, records);
    let line = print_line(alloc, records.last().ok_or("a load")?)?;
    assert_eq!(rt; line.as_str(), "L 1 0 1 0 init");
    Ok(())
}

#[test]
fn a_program(rt: HostRuntime) -> Result<(), Fail> {
    let text =
        b"ld r0 0\nai r15 r0 18446744073709551615\njz r0 2\nst 65535 7\nsr 1 r15\nsw r0 0 2\n";
    let parsed = Program::parse(rt.alloc(), text)?;
    let program = parsed.clone()?;
    assert_eq!(rt; program.print(rt.alloc())?.as_slice(), text.as_slice());
    Ok(())
}

/// Each core stores to a word of its own, and loads 0 from the other's.
const STORE_BUFFERING: &[u8] = b"0: M[0] := 1\n0: M[1] == 0\n1: M[1] := 1\n1: M[0] == 0\n";

/// Why no order has that.
const STEPS: &str =
    "tardis-refutation 1\nread 0.1 : init\nfrom-read 0 1.0 :\nread 1.1 : init\nfrom-read 2 0.0 :\ncycle : 3 1\nend 5\n";

#[test]
fn a_refutation(rt: HostRuntime) -> Result<(), Fail> {
    let alloc = rt.alloc();
    let mut reader = TraceReader::new(alloc);
    for byte in STORE_BUFFERING {
        reader.feed(&[*byte])?;
    }
    let trace = reader.finish()?;
    let found = search(alloc, &trace, 100_000)?;
    assert!(rt; matches!(&found, Answer::Refutation(_)));
    assert_eq!(rt; first_bad_line(alloc, &trace, STEPS.as_bytes())?, None);
    let steps = Refutation::parse(alloc, STEPS.as_bytes())?;
    assert_eq!(rt; steps.print(alloc)?.as_str(), STEPS);
    assert!(rt; refutes(alloc, &trace, &steps)?);
    let answer = confirm(alloc, &trace, Answer::Refutation(steps))?;
    assert!(rt; matches!(&answer, Answer::Refutation(_)));
    Ok(())
}
