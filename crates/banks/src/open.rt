//! The open bank: one signal a point, in memory given to it.
ghost use Rattle.std.specs.Prelude.{◌≡◌, ℕ, List, length, take, drop, nat_lt, slice_set};
ghost use Rattle.std.specs.List.{slice_get};
ghost use Rattle.banks.specs.Kept.{lent};
ghost use Rattle.banks.specs.Short.{open_short};

use crate::bank::Bank;
use signals::Signal;

#[derive(Drop)]
pub struct OpenBank<'a, S> {
    slots: &'a mut [S],
}

impl<'a, S: Signal> OpenBank<'a, S> {
    pub fn over(slots: &'a mut [S]) -> OpenBank<'a, S>
        ensures holds { result.slots.now ≡ slots.old }
        ensures seated { result.slots.ghost_name ≡ slots.entry.ghost_name }
    {
        OpenBank { slots }
    }

    /// The memory, slots beyond the points too.
    pub fn slots(&self) -> &[S]
        ensures { result.now ≡ self.now.slots.now }
    {
        self.slots
    }
}

/// The slots that are points: all of them, but at most 768.
fn point_slots<S>(slots: &[S]) -> &[S]
    ensures { result.now ≡ take 768 slots.now }
{
    &slots[..slots.len().min(768)]
}

fn slots_read<S: Signal>(slots: &[S], index: usize) -> Option<S>
    ensures { result ≡ slice_get (take 768 slots.now) index }
{
    point_slots(slots).get(index).copied()
}

// Kept as a test of the index: behind what `get_mut` lends, nothing is proved of the other slots.
fn slots_write<S: Signal>(slots: &mut [S], index: usize, signal: S) -> bool
    ensures told { result ≡ nat_lt index (length (take 768 slots.old)) }
    ensures after { take 768 slots.new ≡ slice_set (take 768 slots.old) index signal }
    ensures untouched { drop 768 slots.new ≡ drop 768 slots.old }
{
    if index < point_slots(slots).len() {
        slots[index] = signal;
        true
    } else {
        false
    }
}

impl<'a, S: Signal> Bank for OpenBank<'a, S> {
    type Kind = S;

    ghost points = { λ b. take 768 b.slots.now };

    ghost short = { λ b. open_short b.slots.now };

    ghost Rest = { ℕ × List S };

    ghost rest = { λ b. lent b.slots.ghost_name (drop 768 b.slots.now) };

    fn count(&self) -> usize {
        point_slots(self.slots).len()
    }

    fn read(&self, index: usize) -> Option<S> {
        slots_read(self.slots, index)
    }

    fn write(&mut self, index: usize, signal: S) -> bool {
        slots_write(self.slots, index, signal)
    }
}
