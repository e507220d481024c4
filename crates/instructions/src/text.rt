//! Texts that are made in a room of their own, before they are written anywhere.
// Not by `Display`: what formats may fail at any writer, and then no contract says that the text came whole.
ghost use Rattle.std.specs.Prelude.{◌≡◌, ◌+◌, ◌≤◌, ◌++◌, length, decimal};
ghost use Rattle.arrayvec.specs.ArrayVec.{array_vec_len};

use arrayvec::ArrayVec;
use itoa::Buffer;

/// Adds bytes for which there is room.
pub(crate) fn add<const ROOM: usize>(text: &mut ArrayVec<u8, ROOM>, bytes: &[u8])
    requires { array_vec_len text.old + length bytes.now ≤ ROOM }
    ensures { text.new.items ≡ text.old.items ++ bytes.now }
{
    let _ = text.try_extend_from_slice(bytes);
}

/// How many digits a small number has.
pub(crate) fn digits_in(number: u8) -> usize
    ensures value { result ≡ length (decimal number) }
    ensures bound { result ≤ 3 }
{
    match number {
        0..=9 => 1,
        10..=99 => 2,
        _ => 3,
    }
}

/// Adds a number in decimal.
pub(crate) fn add_number<const ROOM: usize>(text: &mut ArrayVec<u8, ROOM>, number: usize)
    requires { array_vec_len text.old + length (decimal number) ≤ ROOM }
    ensures { text.new.items ≡ text.old.items ++ decimal number }
{
    add(text, Buffer::new().format(number).as_bytes());
}
