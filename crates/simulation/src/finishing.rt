//! Finishes the cores in their order.

ghost use Rattle.std.specs.Prelude.{MatchResult};
ghost use Rattle.simulation.specs.Finishing.{FinishesAll, IsUnfinished};

use super::fault::SimulationFault;
use mem_op::CoreId;
use tardis_core::Core;
use tardis_core::rounds::finish;

/// Finishes core 0, then core 1, and so on, up to the first that isn't finished.
pub(crate) fn finish_all(machine: &mut Core) -> Result<(), SimulationFault>
    ensures { MatchResult result
        (λ _. FinishesAll machine.old machine.new)
        (λ fault. IsUnfinished machine.old machine.new fault) }
{
    for number in 0..64 {
        finish(machine, CoreId::at(number))?;
    }
    Ok(())
}
