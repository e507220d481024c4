//! Piles of layers over the open and the packed bank, and small examples of each bank.
#![tactic(auto)]

mod piles;
#[cfg(test)]
mod tests;

pub use piles::{
    board_over_strip, lend_open, lend_packed, strip_over_board, strip_over_strip, through_open,
    through_packed,
};
