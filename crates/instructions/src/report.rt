//! The status line and the refusal line.
ghost use Rattle.std.specs.Prelude.{◌≡◌, ◌≤◌, length};
ghost use Rattle.instructions.specs.Reports.{status_line, refusal_line, record_of, Written, short_number};

use super::text::{add, add_number};
use arrayvec::ArrayVec;

/// A word of two letters, four numbers of at most 20 digits, each behind a space, and the end.
type Record = ArrayVec<u8, 87>;

/// The buffer is too short for the text: it was left as it was.
#[derive(Clone, Copy)]
pub struct ShortBuffer;

impl ShortBuffer {
    /// The number of this refusal.
    pub fn number(self) -> u8
        ensures { result ≡ short_number self }
    {
        16
    }
}

/// Writes `OK` and the four numbers of a program: rungs, words, greatest depth, first rung with that depth.
pub fn write_status(
    counts: (usize, usize, usize, usize),
    buffer: &mut [u8],
) -> Result<usize, ShortBuffer>
    ensures { Written (status_line counts) buffer.old result buffer.new }
{
    let (rungs, words, depth, first) = counts;
    write_text(&record(b"OK", &[rungs, words, depth, first]), buffer)
}

/// Writes `NO`, the number of a refusal, the rung (or line) and the bit (or byte).
pub fn write_refusal(
    number: u8,
    rung: usize,
    place: usize,
    buffer: &mut [u8],
) -> Result<usize, ShortBuffer>
    ensures { Written (refusal_line number rung place) buffer.old result buffer.new }
{
    write_text(&record(b"NO", &[number as usize, rung, place]), buffer)
}

/// A word and then numbers, each behind a space, and byte 10.
#[tactic(auto, using(crate::proofs::Texts::few_digits))]
fn record(word: &[u8], numbers: &[usize]) -> Record
    requires name { length word.now ≤ 2 }
    requires few { length numbers.now ≤ 4 }
    ensures { result.items ≡ record_of word.now numbers.now }
{
    let mut line = Record::new();
    add(&mut line, word);
    for number in numbers {
        line.push(b' ');
        add_number(&mut line, *number);
    }
    line.push(b'\n');
    line
}

/// Writes a text from the start of a buffer, unless that is too short.
fn write_text(text: &[u8], buffer: &mut [u8]) -> Result<usize, ShortBuffer>
    ensures { Written text.now buffer.old result buffer.new }
{
    if buffer.len() < text.len() {
        return Err(ShortBuffer);
    }
    buffer[..text.len()].copy_from_slice(text);
    Ok(text.len())
}
