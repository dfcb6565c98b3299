//! The core machine.

ghost use Rattle.std.specs.Prelude.{◌≡◌, ℕ, map, option_and_then, option_map, slice_get};
ghost use Rattle.std.specs.Option.{option_copied};
ghost use Rattle.core_machine.specs.Parts.{IsMachine, IsReached, world};
ghost use Rattle.core_machine.specs.Works.{log_at};
ghost use Rattle.audit.specs.Runs.{kept_log};

use core_machine::Event;
use core_unit::CoreUnit;
use lease_rule::Config;
use line_stamps::Reply;
use manager_slice::ManagerSlice;
use mem_op::CoreId;
use std::marker::Model;

/// Core units and manager slices.
#[derive(Drop)]
pub(crate) struct Machine {
    pub(crate) config: Config,
    pub(crate) units: Vec<CoreUnit>,
    /// At index c the reply that core c hasn't taken yet, if there is one.
    pub(crate) kept: Vec<Option<Reply>>,
    pub(crate) slices: Vec<ManagerSlice>,
}

impl Model for Machine {
    ghost use Rattle.std.specs.Coded.{codes};
    ghost use Rattle.core_unit.specs.contracts.unit.CoreUnit as core;
    ghost use Rattle.manager_slice.specs.contracts.slice.ManagerSlice as slice;
    ghost use Rattle.core_machine.specs.Parts.{CoreParts};
    ghost use Rattle.tardis_core.specs.inner.Seating.{IsSeated, parts};

    ghost Value = { CoreParts };

    ghost coded = { Prim.hlevel (codes, core.the_row.coded, slice.the_row.coded) };

    ghost view = { λ m. parts m.config m.units.items m.kept.items m.slices.items };

    ghost invariant = { λ m. IsSeated m.config m.units.items m.kept.items m.slices.items };
}

impl Machine {
    /// Does nothing: its contract is the type's invariant.
    pub(crate) fn keeps(&self)
        ensures { IsMachine self.now }
    {
        let _ = &self.config;
    }
}

/// Core units and manager slices. For each core whose message in hand is served, it keeps the reply. If it
/// was asked to, it also keeps the events that it performs: they lead from its start to where it is.
#[derive(Drop)]
pub struct Core {
    pub(crate) machine: Machine,
    pub(crate) events: Option<Vec<Event>>,
}

impl Model for Core {
    ghost use Rattle.std.specs.Prelude.{IfSome};
    ghost use Rattle.tardis_core.specs.contracts.machine.Machine as whole;
    ghost use Rattle.core_machine.specs.Parts.{CoreParts};
    ghost use Rattle.tardis_core.specs.Keeping.{LeadTo};

    ghost Value = { CoreParts };

    ghost coded = { whole.the_row.coded };

    ghost view = { λ core. core.machine };

    ghost invariant = { λ core. IfSome core.events (λ kept. LeadTo kept.items core.machine) };
}

impl Core {
    /// The configuration.
    pub fn config(&self) -> &Config
        ensures { result.now ≡ self.now.config }
    {
        &self.machine.config
    }

    /// The units, core 0's first.
    pub fn units(&self) -> &[CoreUnit]
        ensures units { result.now ≡ map (λ s. s.unit) self.now.seats }
        ensures logs { (core : ℕ) → kept_log result.now core ≡ log_at (world self.now) core }
    {
        let machine = &self.machine;
        machine.keeps();
        machine.units.as_slice()
    }

    /// A core, if it is there.
    pub fn unit(&self, core: CoreId) -> Option<&CoreUnit>
        ensures { option_copied result ≡ option_map (λ s. s.unit) (slice_get self.now.seats core) }
    {
        self.units().get(core.get() as usize)
    }

    /// The slices, number 0 first.
    pub fn slices(&self) -> &[ManagerSlice]
        ensures { result.now ≡ self.now.slices }
    {
        let machine = &self.machine;
        machine.slices.as_slice()
    }

    /// Does nothing: its contract says that some list of events leads to this machine from the
    /// start of its programs.
    pub fn replays(&self)
        ensures { IsReached self.now }
    {
        self.machine.keeps();
    }

    /// The reply that the machine keeps for a core until the core takes it, if there is one.
    pub fn kept(&self, core: CoreId) -> Option<&Reply>
        ensures { option_copied result ≡ option_and_then (λ s. s.kept) (slice_get self.now.seats core) }
    {
        let machine = &self.machine;
        let kept = machine.kept.get(core.get() as usize)?;
        kept.as_ref()
    }
}
