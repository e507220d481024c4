//! Piles of layers that are chosen while a program runs.
#![tactic(auto)]

mod arranging;
mod fault;
mod layer;
mod pile;

pub use fault::ArrangeFault;
pub use layer::Layer;
pub use pile::Pile;
