//! Programs that may stand: the rules on their words, and what they count.
#![tactic(auto)]

mod agreement;
mod checker;
mod draft;
mod fault;
mod program;
mod starts;
mod survey;

pub use agreement::rules_agree;
pub use checker::{Checker, State};
pub use draft::Draft;
pub use fault::RuleFault;
pub use program::Program;
pub use survey::counts;
