//! The commands of the program over any folder and any output.
#![tactic(auto)]

mod answer;
mod basis_logs;
mod call;
mod check_files;
mod config;
mod confirm_files;
mod explain_files;
mod first_operations;
mod inspect_files;
mod left;
mod litmus_files;
mod log_files;
mod log_traces;
mod more;
mod order_certificate;
mod order_files;
mod other_order;
mod output;
mod place;
mod printing;
mod proof_files;
mod putting;
mod refusal;
mod refusal_telling;
mod refused_file;
mod replay_file;
mod run_files;
mod search_answer;
mod search_files;
mod sim_files;
mod sources;
mod text;
mod trace_file;
mod trace_files;
mod upgrade_files;
mod verdict_line;
mod watch;
mod writing;

pub use call::command;
pub use log_files::open_all;
pub use replay_file::ReplayWatch;
pub use search::SearchWatch;
pub use sources::orders_explain_words;
pub use watch::Watch;
