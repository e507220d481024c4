//! Fields of bits, the most significant first.
ghost use Rattle.std.specs.Prelude.{◌≡◌, ◌+◌, ◌*◌, ◌<◌, ◌≤◌, length, slice_index};
ghost use Rattle.cards.specs.Bits.{bits, field_at, moved, Narrow};
ghost use Rattle.cards.specs.Reading.{Room};

use super::fault::{CardCause, CardFault};

/// The bytes of a card, and the bit at which the next field starts.
// A place in all the bytes and not the bytes that are left: a fault names its bit from the start of the card.
// `Room` is asked of each reader: a field could bound the bits that are read, and not those to come.
#[derive(Drop)]
pub(crate) struct Bits<'a> {
    pub(crate) bytes: &'a [u8],
    pub(crate) at: u32,
}

impl Bits<'_> {
    /// The number in the next `width` bits; where the card ends before the field does, nothing moves.
    pub(crate) fn field(&mut self, width: u32) -> Result<u16, CardFault>
        requires near { Room self.old width }
        requires narrow { width ≤ 16 }
        ensures value { result ≡ field_at self.old.bytes.now self.old.at width }
        ensures small { Narrow result width }
        ensures after { self.new.at ≡ moved result self.old.at width }
        ensures same { self.new.bytes.now ≡ self.old.bytes.now }
    {
        let start = self.at;
        let end = start + width;
        if self.bytes.len() < ((end + 7) / 8) as usize {
            return Err(CardCause::EndsEarly.at(start));
        }
        let value = (start..end).fold(0, |value, i| value * 2 + bit(self.bytes, i) as u16);
        self.at = end;
        Ok(value)
    }
}

/// Bit `i` of the bytes; past their end, 0.
pub(crate) fn bit(bytes: &[u8], i: u32) -> u8
    ensures value { result ≡ slice_index (bits bytes.now) i }
    ensures small { result < 2 }
{
    bytes
        .get((i / 8) as usize)
        .map_or(0, |byte| (byte >> (7 - i % 8)) % 2)
}
