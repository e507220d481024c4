//! Rows of parts in a fixed room.
#![tactic(auto)]

mod row;

pub use row::{Full, Row};
