//! The operand of a line: `TRUE`, or `%`, an area letter and a decimal number.
ghost use Rattle.std.specs.Prelude.{◌≡◌};
ghost use Rattle.listings.specs.Operands.{area_read, number_read, point_read, operand_read};

use instructions::Operand;
use points::{Area, Point};

/// The operand that a text says, if it says one.
pub(crate) fn read_operand(text: &[u8]) -> Option<Operand>
    ensures { result ≡ operand_read text.now }
{
    match text {
        b"TRUE" => Some(Operand::True),
        [b'%', letter, digits @ ..] => point_of(*letter as char, digits),
        _ => None,
    }
}

fn point_of(letter: char, digits: &[u8]) -> Option<Operand>
    ensures { result ≡ point_read (area_read letter) (number_read digits.now) }
{
    match (area_of(letter), number_of(digits)) {
        (Some(area), Some(number)) => Some(Operand::At(Point { area, number })),
        _ => None,
    }
}

/// The area letter is I for an input, Q for an output, M for a marker.
// A function and no `TryFrom`: neither type is of this crate.
fn area_of(letter: char) -> Option<Area>
    ensures { result ≡ area_read letter }
{
    match letter {
        'I' => Some(Area::Input),
        'Q' => Some(Area::Output),
        'M' => Some(Area::Marker),
        _ => None,
    }
}

/// A number 0 to 255 without leading zeros.
// By digits and no `parse`: that would let `+5` and `007` through.
fn number_of(digits: &[u8]) -> Option<u8>
    ensures { result ≡ number_read digits.now }
{
    match digits {
        [a @ b'0'..=b'9'] => Some(*a - b'0'),
        [a @ b'1'..=b'9', b @ b'0'..=b'9'] => Some((*a - b'0') * 10 + (*b - b'0')),
        [a @ b'1'..=b'9', b @ b'0'..=b'9', c @ b'0'..=b'9'] => {
            let number = (*a - b'0') as u16 * 100 + (*b - b'0') as u16 * 10 + (*c - b'0') as u16;
            if number > 255 {
                return None;
            }
            Some(number as u8)
        }
        _ => None,
    }
}
