//! The core machine: core units and manager slices, and how any list of events runs on them.
#![tactic(auto)]

mod keeping;
mod machine;
mod opening;
pub mod rounds;
mod running;
mod seat;
mod step;

pub use core_machine::{CoreFault, Event};
pub use core_unit::{CoreEntry, CoreUnit, Outcome, UnitFault};
pub use machine::Core;
pub use opening::opening_units;
pub use running::{RunFault, run};
