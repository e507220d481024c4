//! The points of the signal mast.
#![tactic(auto)]

mod point;

pub use point::{Area, NoSuchArea, Point};
