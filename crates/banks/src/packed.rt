//! The packed bank: the doubtful kind, two bits a point, four points a byte.
ghost use Rattle.std.specs.Prelude.{◌≡◌, ℕ, ◌<◌, List, length, drop, ◌≢◌, nat_lt, slice_set};
ghost use Rattle.std.specs.List.{slice_get};
ghost use Rattle.banks.specs.Kept.{lent};
ghost use Rattle.banks.specs.Packing.{meant, written, pair, with_pair, held, bits_of, unpacked, packed};
ghost use Rattle.banks.specs.Short.{packed_short};

use crate::bank::Bank;
use signals::{Doubtful, Signal};

#[derive(Drop)]
pub struct PackedBank<'a> {
    bytes: &'a mut [u8],
}

impl<'a> PackedBank<'a> {
    pub fn over(bytes: &'a mut [u8]) -> PackedBank<'a>
        ensures holds { result.bytes.now ≡ bytes.old }
        ensures seated { result.bytes.ghost_name ≡ bytes.entry.ghost_name }
    {
        PackedBank { bytes }
    }

    /// The memory, bytes beyond the points too.
    pub fn bytes(&self) -> &[u8]
        ensures { result.now ≡ self.now.bytes.now }
    {
        self.bytes
    }
}

/// Two bits of a byte.
#[derive(Clone, Copy)]
struct Pair {
    bits: u8,
    ghost small: { bits < 4 },
}

impl From<Doubtful> for Pair {
    ghost from_gives = { λ signal two. two.bits ≡ written signal };

    fn from(signal: Doubtful) -> Pair {
        match signal {
            Doubtful::Off => Pair { bits: 0 },
            Doubtful::Unknown => Pair { bits: 2 },
            Doubtful::On => Pair { bits: 1 },
        }
    }
}

impl From<Pair> for Doubtful {
    ghost from_gives = { λ two signal. signal ≡ meant two.bits };

    fn from(two: Pair) -> Doubtful {
        match two.bits {
            0 => Doubtful::Off,
            1 => Doubtful::On,
            _ => Doubtful::Unknown,
        }
    }
}

impl Pair {
    /// The two bits at a place of a byte, counted from the most significant.
    fn at(byte: u8, place: usize) -> Pair
        ensures { result.bits ≡ pair byte place }
    {
        let bits = match place {
            0 => byte / 64 % 4,
            1 => byte / 16 % 4,
            2 => byte / 4 % 4,
            _ => byte % 4,
        };
        Pair { bits }
    }

    /// The byte with the two bits at a place, the other six as they were.
    fn put(self, byte: u8, place: usize) -> u8
        ensures { result ≡ with_pair byte place self.bits }
    {
        let bits = self.bits;
        match place {
            0 => bits * 64 + byte % 64,
            1 => byte / 64 * 64 + bits * 16 + byte % 16,
            2 => byte / 16 * 16 + bits * 4 + byte % 4,
            _ => byte / 4 * 4 + bits,
        }
    }
}

/// Four points for each byte, at most 768.
fn bytes_count(bytes: &[u8]) -> usize
    ensures { result ≡ held bytes.now }
{
    4 * bytes.len().min(192)
}

// Kept as a test of the index, here and in the write: four points share a byte, so `get` would test the byte's index.
fn bytes_read(bytes: &[u8], index: usize) -> Option<Doubtful>
    ensures { result ≡ slice_get (unpacked bytes.now) index }
{
    if index < bytes_count(bytes) {
        Some(Doubtful::from(Pair::at(bytes[index / 4], index % 4)))
    } else {
        None
    }
}

fn bytes_write(bytes: &mut [u8], index: usize, signal: Doubtful) -> bool
    ensures told { result ≡ nat_lt index (length (unpacked bytes.old)) }
    ensures after { unpacked bytes.new ≡ slice_set (unpacked bytes.old) index signal }
    ensures whole { bytes.new ≡ packed bytes.old index signal }
    ensures others { (k : ℕ) → (k ≢ index) → bits_of bytes.new k ≡ bits_of bytes.old k }
    ensures untouched { drop 192 bytes.new ≡ drop 192 bytes.old }
{
    if index < bytes_count(bytes) {
        bytes[index / 4] = Pair::from(signal).put(bytes[index / 4], index % 4);
        true
    } else {
        false
    }
}

impl<'a> Bank for PackedBank<'a> {
    type Kind = Doubtful;

    ghost points = { λ b. unpacked b.bytes.now };

    ghost short = { λ b. packed_short b.bytes.now };

    ghost Rest = { ℕ × List ℕ };

    ghost rest = { λ b. lent b.bytes.ghost_name (drop 192 b.bytes.now) };

    fn count(&self) -> usize {
        bytes_count(self.bytes)
    }

    fn read(&self, index: usize) -> Option<Doubtful> {
        bytes_read(self.bytes, index)
    }

    /// The other three points of the byte keep their bits, also where these are 11.
    fn write(&mut self, index: usize, signal: Doubtful) -> bool
        ensures told { result ≡ nat_lt index (length (unpacked self.old.bytes.now)) }
        ensures after { unpacked self.new.bytes.now ≡ slice_set (unpacked self.old.bytes.now) index signal }
        ensures untouched { lent self.new.bytes.ghost_name (drop 192 self.new.bytes.now) ≡ lent self.old.bytes.ghost_name (drop 192 self.old.bytes.now) }
        ensures whole { self.new.bytes.now ≡ packed self.old.bytes.now index signal }
        ensures others { (k : ℕ) → (k ≢ index) → bits_of self.new.bytes.now k ≡ bits_of self.old.bytes.now k }
    {
        bytes_write(self.bytes, index, signal)
    }
}
