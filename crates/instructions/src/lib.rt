//! Instruction List: instructions, their words and their lines.
#![tactic(auto)]

mod brackets;
mod instruction;
mod line;
mod listing;
mod report;
mod store;
mod text;
mod word;

pub use brackets::{brackets_after, depth};
pub use instruction::{Instruction, Operand};
pub use report::{ShortBuffer, write_refusal, write_status};
pub use store::{Full, Store};
pub use word::{NotAnInstruction, words_agree};
