//! Where a row of instructions stands.
ghost use Rattle.std.specs.Prelude.{◌≤◌};

/// What came last decides what may come next.
#[derive(Clone, Copy)]
pub enum State {
    /// Nothing has come yet.
    Begun,
    /// A bracket was opened.
    Opened,
    /// Contacts are being joined.
    Joining,
    /// A coil was driven.
    Stored,
}

/// Judges instructions one by one, by the state and the instruction together.
#[derive(Clone, Copy)]
pub struct Checker {
    pub(crate) state: State,
    pub(crate) brackets: usize,
    pub(crate) rungs: usize,
    pub(crate) words: usize,
    ghost shallow: { brackets ≤ 15 },
    ghost few: { rungs ≤ 128 },
    ghost short: { words ≤ 4096 },
}

mod judging;
