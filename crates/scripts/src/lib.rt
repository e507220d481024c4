//! Scripts of calls: a command a line, an answer a line.
#![tactic(auto)]

mod answers;
mod arranging;
mod calling;
mod command;
mod fault;
mod fields;
mod line;
mod memory;
mod notation;
mod running;

pub use fault::{Cause, ScriptFault};
pub use fields::{Fields, bytes_in, number_in};
pub use memory::Memory;
pub use notation::Notation;
pub use running::{run_script, run_script_on};
