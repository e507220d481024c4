//! Reading listings.
#![tactic(auto)]

mod agreement;
mod fault;
mod line;
mod listing;
mod operand;

pub use agreement::listings_agree;
pub use fault::{Cause, ListingFault};
pub use listing::{read, read_into};
