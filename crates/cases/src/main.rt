//! Many cards and listings: each line of standard input is a card in hexadecimal, or `#` and a listing in hexadecimal,
//! and what `startline` prints for it follows on standard output.
#![tactic(auto)]

use instructions::{ShortBuffer, Store};
use listings::{ListingFault, read_into};
use programs::Program;
use std::io;
use std::io::{Read, Write};
use translation::{LadderFault, take_card};

/// The longest listing: 4,096 lines of at most 11 bytes.
const LISTING_BYTES: usize = 45056;

/// Room for every status line and refusal line.
const LINE_BYTES: usize = 96;

/// Prints the front of a buffer that a text was written into.
// As in `startline`: two programs print so, and a library for two functions would be no plainer.
fn print_front(
    rt: &HostRuntime,
    written: Result<usize, ShortBuffer>,
    buffer: &[u8],
) -> io::Result<()> {
    match written.ok().and_then(|length| buffer.get(..length)) {
        Some(text) => rt.stdout().write_all(text),
        None => Ok(()),
    }
}

/// Prints the status line and the listing.
fn print_program(rt: &HostRuntime, program: &Program) -> io::Result<()> {
    let mut line = [0u8; LINE_BYTES];
    let written = program.write_status(&mut line);
    print_front(rt, written, &line)?;
    let mut listing = vec![in rt.alloc(); 0u8; LISTING_BYTES]?;
    let written = program.write_listing(&mut listing);
    print_front(rt, written, listing.as_slice())
}

/// Prints the program that was taken over, or the refusal line.
fn print_outcome<E, F>(
    rt: &HostRuntime,
    program: &Program,
    taken: Result<(usize, usize, usize, usize), E>,
    write_line: F,
) -> io::Result<()>
where
    E: Drop,
    F: FnOnce(E, &mut [u8]) -> Result<usize, ShortBuffer>,
    requires { F.IsAlwaysCallable write_line }
{
    match taken {
        Ok(_) => print_program(rt, program),
        Err(fault) => {
            let mut line = [0u8; LINE_BYTES];
            let written = write_line(fault, &mut line);
            print_front(rt, written, &line)
        }
    }
}

/// Whether a byte is a hexadecimal digit; every other byte but `#` ends a case.
fn is_digit(byte: u8) -> bool {
    matches!(byte, b'0'..=b'9' | b'a'..=b'f')
}

/// The value of a hexadecimal digit.
fn value(digit: u8) -> u8 {
    if digit < b'a' {
        digit.wrapping_sub(b'0')
    } else {
        digit.wrapping_sub(b'a').wrapping_add(10)
    }
}

/// A case as far as it is read.
#[derive(Drop)]
struct Case {
    /// The bytes of its digits, two a byte.
    bytes: Vec<u8>,
    /// A digit whose second has not come; at the end of a case it is none.
    first: Option<u8>,
    /// Whether a `#` marks a listing.
    marked: bool,
}

impl Case {
    /// Adds digits that follow one another.
    fn add(&mut self, digits: &[u8]) -> io::Result<()> {
        let Some((second, rest)) = digits.split_first() else {
            return Ok(());
        };
        let whole = match self.first.take() {
            Some(first) => {
                self.add_byte(first, *second)?;
                rest
            }
            None => digits,
        };
        // Marks between all digits leave rows of one.
        if let [alone] = whole {
            self.first = Some(*alone);
            return Ok(());
        }
        for pair in whole.chunks_exact(2) {
            if let [first, second] = pair {
                self.add_byte(*first, *second)?;
            }
        }
        if whole.len() % 2 != 0 {
            self.first = whole.last().copied();
        }
        Ok(())
    }

    fn add_byte(&mut self, first: u8, second: u8) -> io::Result<()> {
        let byte = value(first).wrapping_mul(16).wrapping_add(value(second));
        self.bytes.push(byte)?;
        Ok(())
    }

    /// Prints what `startline` prints for the card, or for the listing, and begins another case.
    fn print(&mut self, rt: &HostRuntime) -> io::Result<()> {
        let mut program = Program::empty();
        if self.marked {
            let taken = read_into(self.bytes.as_slice(), &mut program);
            print_outcome(rt, &program, taken, ListingFault::write_line)?;
        } else {
            let taken = take_card(self.bytes.as_slice(), &mut Store::new(), &mut program);
            print_outcome(rt, &program, taken, LadderFault::write_line)?;
        }
        self.bytes.clear();
        self.first = None;
        self.marked = false;
        Ok(())
    }
}

fn main(rt: HostRuntime) -> io::Result<()> {
    let mut text = Vec::new(rt.alloc());
    rt.stdin().read_to_end(&mut text)?;
    let mut case = Case {
        bytes: Vec::new(rt.alloc()),
        first: None,
        marked: false,
    };
    // Digits are decoded where they stand: a row of them beside their bytes took twice the memory.
    for part in text.as_slice().split_inclusive(|byte| !is_digit(*byte)) {
        let Some((end, digits)) = part.split_last() else {
            return Ok(());
        };
        // What stands behind the last end is no case.
        if is_digit(*end) {
            return Ok(());
        }
        case.add(digits)?;
        if *end == b'#' {
            case.marked = true;
        } else {
            case.print(&rt)?;
        }
    }
    Ok(())
}

#[cfg(test)]
mod tests {
    use super::*;
    use translation::translate_card;

    // The number, rung and bit of a refusal.
    fn refusal(card: &[u8]) -> Option<(u8, u8, u32)> {
        let mut store = Store::new();
        let refused = translate_card(card, &mut store).err();
        refused.map(|fault| (fault.number(), fault.rung(), fault.bit()))
    }

    #[test]
    fn a_card_that_ends_in_its_first_rung(rt: HostRuntime) {
        assert!(rt; refusal(&[1]) == Some((3, 0, 8)));
    }

    #[test]
    fn an_empty_card(rt: HostRuntime) {
        assert!(rt; refusal(&[]) == Some((3, 0, 0)));
    }

    #[test]
    fn a_card_of_no_rungs(rt: HostRuntime) {
        let mut store = Store::new();
        assert!(rt; translate_card(&[0], &mut store).ok() == Some((0, 0, 0, 0)));
        assert!(rt; store.words().len() == 0);
    }
}
