//! Banks of points: where signals are kept, and the layers that stand on a bank.
#![tactic(auto)]

mod bank;
mod laws;
mod open;
mod packed;
mod patch;
mod refusal;
mod strip;
mod table;

pub use bank::Bank;
pub use laws::{exchange_twice, mark_and_restore, mark_on_both, mark_twice, write_and_read};
pub use open::OpenBank;
pub use packed::PackedBank;
pub use patch::PatchBoard;
pub use refusal::Refusal;
pub use strip::Strip;
pub use table::Table;
