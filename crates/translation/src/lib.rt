//! From rungs to words.
#![tactic(auto)]

mod card;
mod emitters;
mod ladder_fault;
mod laws;
mod rung;
mod rung_fault;
mod spelling;

pub use card::{take_card, translate_card};
pub use ladder_fault::{AtRung, InRung, LadderFault};
pub use laws::{acceptance_is_exact, verdict_is_one};
pub use rung::translate;
pub use rung_fault::RungFault;
