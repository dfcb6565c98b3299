//! The configuration of the machine, and its rules of stamps and ranks.
#![tactic(auto)]

mod config;
mod fault;
mod rule;

pub use config::Config;
pub use fault::BadConfig;
pub use rule::{load_stamp, rank_of, renewed_rts, self_increment, store_stamp, write_back_rts};
