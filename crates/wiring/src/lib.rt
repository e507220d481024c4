//! Rungs, and what it means that a wiring reads one.
#![tactic(auto)]

mod rung;
mod theorems;

pub use rung::{Action, Coil, Contact, Link, Rung};
pub use theorems::{on_by_a_path, one_text, paths_stand, value_stands, worked_circuits};
