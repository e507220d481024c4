//! Scans: what words make of the points, and that for the listings of rungs the paths make the same.
#![tactic(auto)]

mod brackets;
mod engine;
mod fault;
mod joining;
mod program;
mod theorems;

pub use fault::ScanFault;
pub use joining::Joining;
pub use program::scan;
pub use theorems::{cards_agree, coils_receive, ruled_out, scans_agree, unnamed_stay};
