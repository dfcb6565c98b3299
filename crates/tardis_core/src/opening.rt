//! The machine at its start.

ghost use Rattle.std.specs.Prelude.{◌≡◌, true, IfOk, IfErr};
ghost use Rattle.core_machine.specs.Machine.{opening};
ghost use Rattle.core_machine.specs.Opening.{new_units, opening_parts};
ghost use Rattle.core_machine.specs.Parts.{world};
ghost use Rattle.core_machine.specs.Steps.{is_memory};

use super::machine::{Core, Machine};
use core_machine::CoreFault;
use core_program::ProgramSet;
use core_unit::CoreUnit;
use lease_rule::Config;
use manager_slice::new_slices;
use mem_op::CoreId;
use std::alloc::Global;

impl Core {
    /// The machine with each core at the start of its program and all slices empty. Only 10
    /// OutOfMemory may come.
    pub fn new(alloc: Global, programs: &ProgramSet, config: &Config) -> Result<Core, CoreFault>
        ensures parts { IfOk result (λ m. m ≡ opening_parts programs.now.programs config.now) }
        ensures opening { IfOk result (λ m. world m ≡ opening programs.now.programs config.now.slices) }
        ensures refused { IfErr result (λ fault. is_memory fault ≡ true) }
    {
        let machine = Machine::new(alloc, programs, config)?;
        Ok(Core {
            machine,
            events: None,
        })
    }

    /// The same machine, which keeps the events that it performs.
    pub fn keeping_events(
        alloc: Global,
        programs: &ProgramSet,
        config: &Config,
    ) -> Result<Core, CoreFault>
        ensures parts { IfOk result (λ m. m ≡ opening_parts programs.now.programs config.now) }
        ensures refused { IfErr result (λ fault. is_memory fault ≡ true) }
    {
        let machine = Machine::new(alloc, programs, config)?;
        Ok(Core {
            machine,
            events: Some(Vec::new(alloc)),
        })
    }
}

impl Machine {
    // The machine with each core at the start of its program and all slices empty. Only 10
    // OutOfMemory may come.
    fn new(alloc: Global, programs: &ProgramSet, config: &Config) -> Result<Machine, CoreFault>
        ensures parts { IfOk result (λ m. m ≡ opening_parts programs.now.programs config.now) }
        ensures opening { IfOk result (λ m. world m ≡ opening programs.now.programs config.now.slices) }
        ensures refused { IfErr result (λ fault. is_memory fault ≡ true) }
    {
        let units = opening_units(alloc, programs, config)?;
        let mut kept = Vec::new(alloc);
        kept.resize(units.len(), None)?;
        let slices = new_slices(alloc, config)?;
        Ok(Machine {
            config: *config,
            units,
            kept,
            slices,
        })
    }
}

/// A unit for each core at the start of its program, core 0 first. Only 10 OutOfMemory may come.
pub fn opening_units(
    alloc: Global,
    programs: &ProgramSet,
    config: &Config,
) -> Result<Vec<CoreUnit>, CoreFault>
    ensures units { IfOk result (λ units. units.items ≡ new_units config.now 0 programs.now.programs) }
    ensures refused { IfErr result (λ fault. is_memory fault ≡ true) }
{
    let mut units = Vec::new(alloc);
    for number in 0..programs.len() as u64 {
        let core = CoreId::new(number).unwrap();
        let program = programs.get(core).unwrap().clone()?;
        let opened = CoreUnit::new(alloc, core, program, config)?;
        units.reserve(1)?;
        units.push_reserved(opened);
    }
    Ok(units)
}
