//! The checks of one core's log alone.
#![tactic(auto)]

mod conforming;
mod core_order;
mod fault;
mod laws;
mod logged;

pub use conforming::conforms;
pub use core_order::{core_fault, falls};
pub use fault::{CoreRule, RuleFault};
pub use laws::{
    core_faults_are_totally_ordered, order_faults_are_where_logs_fall,
    program_faults_are_where_logs_differ, tied_core_faults_are_one,
};
pub use logged::Logged;
