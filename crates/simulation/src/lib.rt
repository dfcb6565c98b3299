//! Schedules and their text, and simulations: core programs on the core machine, by a schedule and then to their ends.
#![tactic(auto)]

mod command;
mod command_reading;
mod commands;
mod disturbing;
mod drawing;
mod event_table;
mod event_text;
mod fault;
mod finishing;
mod schedule;
mod schedule_fault;
mod schedule_laws;
mod simulating;

pub use command::Command;
pub use event_table::print_events;
pub use fault::SimulationFault;
pub use schedule::parse_schedule;
pub use schedule_fault::ScheduleFault;
pub use schedule_laws::{one_fault, spelled_is_read};
pub use simulating::simulate;
