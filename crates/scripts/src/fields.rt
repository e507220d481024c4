//! The fields of a line: words parted by one space, numbers, and bytes in hexadecimal.
ghost use Rattle.std.specs.Prelude.{◌<◌, IfSome};

use crate::fault::Cause;
use std::alloc::Global;

/// The greatest number of a script.
const GREATEST: usize = 1_000_000;

/// The fields of a line that are not read yet.
#[derive(Clone, Copy)]
pub struct Fields<'a> {
    rest: Option<&'a str>,
}

impl<'a> Fields<'a> {
    pub fn of(line: &'a str) -> Fields<'a> {
        Fields { rest: Some(line) }
    }

    /// The next field, if there is one.
    pub fn more(&mut self) -> Option<&'a str> {
        let text = self.rest.take()?;
        let Some((field, rest)) = text.split_once(' ') else {
            return Some(text);
        };
        self.rest = Some(rest);
        Some(field)
    }

    /// The next field, which has to be there.
    pub fn field(&mut self) -> Result<&'a str, Cause> {
        self.more().ok_or(Cause::NotACommand)
    }

    /// The next field as a number.
    pub fn number(&mut self) -> Result<usize, Cause> {
        number_in(self.field()?)
    }

    /// No field is left.
    pub fn end(self) -> Result<(), Cause> {
        match self.rest {
            None => Ok(()),
            Some(_) => Err(Cause::NotACommand),
        }
    }
}

/// A number in decimal, at most 1,000,000.
pub fn number_in(field: &str) -> Result<usize, Cause> {
    // `parse` would take a sign too.
    if field.starts_with('+') {
        return Err(Cause::NotACommand);
    }
    field
        .parse::<usize>()
        .ok()
        .filter(|number| *number <= GREATEST)
        .ok_or(Cause::NotACommand)
}

/// The value of a hexadecimal digit.
fn digit(byte: u8) -> Option<u8>
    ensures { IfSome result (λ d. d < 16) }
{
    let value = char::from(byte).to_digit(16)?;
    Some(value as u8)
}

/// The byte of two hexadecimal digits.
fn byte_of(pair: &[u8]) -> Option<u8> {
    let [high, low] = pair else {
        return None;
    };
    Some(digit(*high)? * 16 + digit(*low)?)
}

/// What a field lists: nothing where it is `-`, and an empty field is none.
pub(crate) fn listed(field: &str) -> Result<&str, Cause> {
    match field {
        "-" => Ok(""),
        "" => Err(Cause::NotACommand),
        _ => Ok(field),
    }
}

/// The bytes that a field says, two hexadecimal digits each; `-` for none.
pub fn bytes_in(heap: Global, field: &str) -> Result<Vec<u8>, Cause> {
    let digits = listed(field)?.as_bytes();
    // Tested before a byte is kept, so that a long field with a digit too many takes no time and no memory.
    if digits.len() % 2 != 0 {
        return Err(Cause::NotACommand);
    }
    let mut bytes = Vec::new(heap);
    for pair in digits.chunks_exact(2) {
        bytes.push(byte_of(pair).ok_or(Cause::NotACommand)?)?;
    }
    Ok(bytes)
}
