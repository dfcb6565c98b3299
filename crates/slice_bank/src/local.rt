//! Slices without locks.

ghost use Rattle.std.specs.Prelude.{◌≡◌, IfOk, IfErr, OnErr};
ghost use Rattle.manager_slice.specs.declared.fault.SliceFault.TheVariants.{OutOfMemory};
ghost use Rattle.line_stamps.specs.Messages.{addr_of};
ghost use Rattle.slice_bank.specs.Serving.{IsServedAt, IsServedBySome, slice_number};
ghost use Rattle.manager_slice.specs.Opening.{new_slices};

use super::port::Port;
use super::slices::serve;
use lease_rule::Config;
use line_stamps::{Message, Reply};
use manager_slice::{ManagerSlice, SliceFault, new_slices};
use mem_op::CoreId;
use std::alloc::Global;
use std::marker::Model;

/// The slices of a machine without locks, for one thread.
#[derive(Drop)]
pub struct LocalPort {
    config: Config,
    slices: Vec<ManagerSlice>,
}

impl Model for LocalPort {
    ghost use Rattle.std.specs.Coded.{codes};
    ghost use Rattle.std.specs.Prelude.{◌≡◌, length};
    ghost use Rattle.manager_slice.specs.contracts.slice.ManagerSlice as slice;
    ghost use Rattle.slice_bank.specs.Parts.{PortParts};

    ghost Value = { PortParts };

    ghost coded = { Prim.hlevel (codes, slice.the_row.coded) };

    ghost view = { λ p. record { config = p.config; slices = p.slices.items } };

    ghost invariant = { λ p. length p.slices.items ≡ p.config.slices };
}

impl LocalPort {
    /// As many empty slices as the configuration says. Only 10 OutOfMemory may come.
    pub fn new(alloc: Global, config: &Config) -> Result<LocalPort, SliceFault>
        ensures opening { IfOk result (λ port. port ≡ record {
          config = config.now;
          slices = new_slices config.now config.now.slices;
        }) }
        ensures refused { IfErr result (λ fault. fault ≡ OutOfMemory) }
    {
        Ok(LocalPort {
            config: *config,
            slices: new_slices(alloc, config)?,
        })
    }

    /// Gives the slices back, in the order of their numbers.
    pub fn into_slices(self) -> Vec<ManagerSlice>
        ensures { result.items ≡ self.slices }
    {
        self.slices
    }
}

impl Port for LocalPort {
    fn serve(&mut self, from: CoreId, message: &Message) -> Result<Reply, SliceFault>
        ensures by_some { IsServedBySome from message.now result }

        // The slice of the address serves it, and the others stay as they are.
        ensures served { IsServedAt (slice_number self.old.config (addr_of message.now))
            self.old.slices from message.now result self.new.slices }
        ensures config { self.new.config ≡ self.old.config }
        ensures refused { OnErr result (self.new ≡ self.old) }
    {
        let number = self.config.slice_of(message.addr());
        let slice = &mut self.slices[number];
        serve(slice, from, message)
    }
}
