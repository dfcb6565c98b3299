//! Why a set of logs got its verdict.
#![tactic(auto)]

mod acts;
mod around;
mod context;
mod culprit;
mod departure;
mod explaining;
mod explanation;
mod fall;
mod faults;
mod summary;
mod times;
mod wrong_read;

pub use acts::{kind_name, named_id};
pub use explaining::explain;
pub use explanation::{Departure, Due, Explanation, Fall, FaultCounts, Summary, Use, WrongRead};
pub use summary::by_key;
pub use times::ties;
pub use wrong_read::place_of;
