//! The controller: installs, settings, readings, scans and writings over a bank, and whole runs of them.
#![tactic(auto)]

mod call;
mod controller;
mod install_fault;
mod refusal;
mod runs;

pub use call::{Answer, Call};
pub use controller::Controller;
pub use install_fault::InstallFault;
pub use refusal::Refusal;
pub use runs::{Outcome, operate};
