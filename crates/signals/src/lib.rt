//! Signal kinds.
#![tactic(auto)]

mod doubtful;
mod plain;
mod signal;

pub use doubtful::Doubtful;
pub use plain::Plain;
pub use signal::Signal;
