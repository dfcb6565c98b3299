//! A trace judged in the order in which its lines stand, each operation against one memory.
#![tactic(auto)]

mod fault;
mod laws;
mod line_replay;
mod reading;
mod replayer;
mod step_id;
mod stop;
mod stores_by_word;
mod verdict;
mod wrong_load;

pub use fault::ReplayFault;
pub use laws::{one_answer, same_trace};
pub use reading::replay;
pub use replayer::Replayer;
pub use step_id::StepId;
pub use stores_by_word::StoresByWord;
pub use verdict::ReplayVerdict;
pub use wrong_load::WrongLoad;
