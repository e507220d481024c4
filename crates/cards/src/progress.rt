//! How far a card has been read.
ghost use Rattle.std.specs.Prelude.{◌+◌, ◌*◌, ◌≤◌};

/// The bit at which the next field starts, and the rungs: how many there are, how many are left.
///
/// A rung has at most 1,521 bits, so a card has at most 194,696.
#[derive(Clone, Copy)]
pub struct Progress {
    pub(crate) at: u32,
    pub(crate) rungs: u8,
    pub(crate) left: u8,
    ghost near: { at + 1521 * left ≤ 194696 },
    ghost within: { left ≤ rungs },
    ghost few: { rungs ≤ 128 },
}
