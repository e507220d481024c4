//! Reading cards: bits, fields, rungs.
#![tactic(auto)]

mod bits;
mod card;
mod fault;
mod part;
mod parts;
mod progress;
mod rung;
mod sizes;

pub use card::{read_end, read_head, read_rung};
pub use fault::{CardCause, CardFault};
pub use progress::Progress;
