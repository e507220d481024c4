//! Where words are kept while a program is made.
ghost use Rattle.std.specs.Prelude.{◌≤◌};

/// Room for 4,096 words.
// A plain array of 4,096 and a length, by the project's rule; a store is copied as a value, which no vector or model is.
#[derive(Clone, Copy)]
pub struct Store {
    words: [u16; 4096],
    len: usize,
    ghost short: { len ≤ 4096 },
}

/// Words found no room: nothing was altered.
#[derive(Clone, Copy)]
pub struct Full;

mod keeping;
