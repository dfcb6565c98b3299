//! The inbox of a core, and slices that are asked through ports.

use super::values::*;
use inbox::Inbox;
use lease_rule::Config;
use line_stamps::{RecallKind, Reply};
use manager_slice::ManagerSlice;
use slice_bank::{BankPort, LocalPort, Port, SliceBank};
use std::process::Abort;
use std::test::Fail;

// A capacity of 0 counts as 1.
#[test]
fn recalls_wait_in_an_inbox(rt: HostRuntime) -> Result<(), Fail> {
    let recalls = [
        recall(1, 0, RecallKind::Flush, 0),
        recall(1, 5, RecallKind::WriteBack, 17),
        recall(1, 3, RecallKind::WriteBack, 4),
    ];
    for (capacity, held, refused) in [
        (0, &recalls[..1], recalls[1]),
        (1, &recalls[..1], recalls[1]),
        (2, &recalls[..2], recalls[2]),
    ] {
        let inbox = Inbox::new(rt.alloc(), capacity)?;
        assert_eq!(rt; inbox.poll(&rt), None);
        for recall in held {
            assert_eq!(rt; inbox.offer(&rt, *recall), Ok(()));
        }
        assert_eq!(rt; inbox.offer(&rt, refused), Err(refused));
        for recall in held {
            assert_eq!(rt; inbox.poll(&rt), Some(*recall));
        }
        assert_eq!(rt; inbox.poll(&rt), None);
    }
    Ok(())
}

/// Messages of two cores to two slices, with a lease of 10: the second line then belongs to another core.
fn answers(rt: &impl Abort, port: &mut impl Port) {
    let busy = Reply::Busy(recall(1, 1, RecallKind::WriteBack, 12));
    let (zero, one) = (core(0), core(1));
    let rows = [
        (zero, read(0, None, stamp(0)), Reply::ShRep(initial(0, 10))),
        (one, write(1, None), Reply::ExRep(initial(0, 0))),
        (zero, read(1, None, stamp(2)), busy),
    ];
    for (from, message, reply) in &rows {
        assert_eq!(rt; port.serve(*from, message), Ok(*reply));
    }
}

/// Checks that each slice has its own number, and served one message.
fn served(rt: &impl Abort, slices: &[ManagerSlice]) {
    assert_eq!(rt; slices.len(), 2);
    for (number, slice) in slices.iter().enumerate() {
        assert_eq!(rt; (slice.number(), slice.history().len()), (number, 1));
    }
}

#[test]
fn slices_are_served_with_locks_and_without(rt: HostRuntime) -> Result<(), Fail> {
    let config = Config::new(2, 10, 1_000, 64, 64, 64, 1_000)?;
    let bank = SliceBank::new(rt.alloc(), &config)?;
    let mut locked = BankPort {
        rt: &rt,
        bank: &bank,
    };
    answers(&rt, &mut locked);
    served(&rt, bank.into_slices().as_slice());
    let mut local = LocalPort::new(rt.alloc(), &config)?;
    answers(&rt, &mut local);
    served(&rt, local.into_slices().as_slice());
    Ok(())
}
