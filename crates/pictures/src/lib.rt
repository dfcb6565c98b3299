//! Pictures, in SVG: of an explanation of a verdict, and of a refutation.
#![tactic(auto)]

mod case;
mod explanations;
mod layout;
mod ordering;
mod painting;
mod refutations;
mod scene;
mod shown;
mod svg;

pub use explanations::draw_explanation;
pub use refutations::draw_refutation;
pub use shown::{Shown, Wanted, shown_of};
