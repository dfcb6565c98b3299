//! Slices under locks.

ghost use Rattle.std.specs.Prelude.{◌≡◌, IfOk, IfErr, vec_len};
ghost use Rattle.manager_slice.specs.declared.fault.SliceFault.TheVariants.{OutOfMemory};
ghost use Rattle.slice_bank.specs.Serving.{IsServedBySome};

use super::port::Port;
use super::slices::serve;
use crossbeam_utils::CachePadded;
use lease_rule::Config;
use line_stamps::{Message, Reply};
use manager_slice::{ManagerSlice, SliceFault, new_slices};
use mem_op::CoreId;
use std::alloc::Global;
use std::hint::spin_loop;
use std::marker::Model;
use std::sync::{Mutex, MutexGuard, Wait};

/// How often a thread tries the lock of a slice before it sleeps for it. A service takes less than a microsecond, and waking a
/// thread takes tens of microseconds.
const LOCK_TRIES_BEFORE_SLEEP: u32 = 400;

/// How many times the processor pauses after a failed try, since each try takes the lock's cache line from its holder.
const PAUSES_BETWEEN_LOCK_TRIES: u32 = 6;

/// The slices of a machine, each under a lock of its own, for any number of threads. Contracts see only the configuration: about
/// a slice under its lock they know only its type's invariant, which is that its state is the replay of its history.
#[derive(Drop)]
pub struct SliceBank {
    config: Config,
    slices: Vec<Mutex<CachePadded<ManagerSlice>>>,
    // Empty, with room for the slices, so that giving them back takes no memory.
    room: Vec<ManagerSlice>,
}

impl Model for SliceBank {
    ghost use Rattle.std.specs.Prelude.{◌≡◌, ◌≤◌, vec_len, vec_capacity};
    ghost use Rattle.lease_rule.specs.ConfigParts.{ConfigParts};

    ghost Value = { ConfigParts };

    ghost view = { λ b. b.config };

    ghost invariant = { λ b. (vec_len b.slices ≡ b.config.slices)
        × (vec_len b.room ≡ 0)
        × (b.config.slices ≤ vec_capacity b.room) };
}

impl SliceBank {
    /// As many empty slices as the configuration says. Only 10 OutOfMemory may come.
    pub fn new(alloc: Global, config: &Config) -> Result<SliceBank, SliceFault>
        ensures config { IfOk result (λ bank. bank ≡ config.now) }
        ensures refused { IfErr result (λ fault. fault ≡ OutOfMemory) }
    {
        let mut slices = Vec::new(alloc);
        for slice in new_slices(alloc, config)? {
            slices.reserve(1)?;
            slices.push_reserved(Mutex::new(CachePadded::new(slice)));
        }
        let mut room = Vec::new(alloc);
        room.reserve(config.slices())?;
        Ok(SliceBank {
            config: *config,
            slices,
            room,
        })
    }

    /// Has the slice of the message's address handle it under its lock, for which it may wait.
    pub fn serve<R: Wait>(
        &self,
        rt: &R,
        from: CoreId,
        message: &Message,
    ) -> Result<Reply, SliceFault>
        ensures { IsServedBySome from message.now result }
    {
        let number = self.config.slice_of(message.addr());
        let mut slice = take_lock(rt, &self.slices[number]);
        serve(&mut slice, from, message)
    }

    /// Gives the slices back, in the order of their numbers.
    pub fn into_slices(self) -> Vec<ManagerSlice>
        ensures { vec_len result ≡ self.slices }
    {
        let SliceBank { slices, room, .. } = self;
        let mut given = room;
        for slice in slices {
            given.push_reserved(slice.into_inner().into_inner());
        }
        given
    }
}

// Takes the lock of a slice. A thread sleeps for it only after many failed tries.
fn take_lock<'a, R: Wait>(
    rt: &R,
    slice: &'a Mutex<CachePadded<ManagerSlice>>,
) -> MutexGuard<'a, CachePadded<ManagerSlice>> {
    for _ in 0..LOCK_TRIES_BEFORE_SLEEP {
        if let Some(taken) = slice.try_lock() {
            return taken;
        }
        pause();
    }
    slice.lock(rt)
}

// Lets the thread that holds a lock go on for a while.
fn pause() {
    for _ in 0..PAUSES_BETWEEN_LOCK_TRIES {
        spin_loop();
    }
}

/// A bank, with the runtime by which threads wait for its locks.
#[derive(Drop)]
pub struct BankPort<'a, R: Wait> {
    /// The runtime.
    pub rt: &'a R,
    /// The bank.
    pub bank: &'a SliceBank,
}

impl<'a, R: Wait> Port for BankPort<'a, R> {
    fn serve(&mut self, from: CoreId, message: &Message) -> Result<Reply, SliceFault> {
        let bank = self.bank;
        bank.serve(self.rt, from, message)
    }
}
