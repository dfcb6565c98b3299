//! Refutations: steps by which anyone can see that no sequentially consistent order of a trace's operations exists.
#![tactic(auto)]

mod answer;
mod cases;
mod closed;
mod covering;
mod dead;
mod fact;
mod fault;
mod indexed;
mod items;
mod laws;
mod line;
mod moves;
mod path;
mod print;
mod reading;
mod refuting;
mod rules;
mod seen;
mod state;
mod state_line;
mod step;
mod text;

pub use answer::{Answer, confirm};
pub use covering::lies_in;
pub use fault::CertificateFault;
pub use items::Items;
pub use laws::{complete, one_fault, refutations_hold, spelled_is_read};
pub use moves::{next_operation, number_of, put_word, settle, was_performed, word_of};
pub use path::is_up_to;
pub use refuting::{first_wrong_step, refutes};
pub use state::{Numbers, State, StateSet};
pub use step::{Path, Point, Range, Ranges, Refutation, Step};
pub use text::first_bad_line;
