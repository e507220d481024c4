//! Writing listings.
ghost use Rattle.std.specs.Prelude.{◌≡◌, ◌≤◌, ◌++◌, length, drop};
ghost use Rattle.instructions.specs.Lines.{word_line, listing};
ghost use Rattle.instructions.specs.Stores.{stored};
ghost use Rattle.instructions.specs.Reports.{Written};

use super::instruction::Instruction;
use super::line::Line;
use super::report::ShortBuffer;
use super::store::Store;

impl Store {
    /// Writes the listing of the words that are kept: its length is answered, later bytes stay.
    pub fn write_listing(&self, buffer: &mut [u8]) -> Result<usize, ShortBuffer>
        ensures { Written (listing (stored self.now)) buffer.old result buffer.new }
    {
        let words = self.words();
        if buffer.len() < listing_len(words) {
            return Err(ShortBuffer);
        }
        Ok(write_lines(words, buffer))
    }
}

/// How many bytes the lines of the words have.
// Counted and not made: by the lines themselves, a listing that finds no room took three times as long to refuse.
#[tactic(auto, using(crate::proofs::Texts::length_listing))]
fn listing_len(words: &[u16]) -> usize
    requires { length words.now ≤ 4096 }
    ensures { result ≡ length (listing words.now) }
{
    words.iter().map(|word| line_len(*word)).sum()
}

/// How many bytes the line of a word has; a word that stands for no instruction has none.
fn line_len(word: u16) -> usize
    ensures value { result ≡ length (word_line word) }
    ensures bound { result ≤ 11 }
{
    match Instruction::try_from(word) {
        Ok(instruction) => instruction.line_len(),
        Err(_) => 0,
    }
}

/// Writes the lines of the words from the start of the buffer, and answers where they end.
fn write_lines(words: &[u16], buffer: &mut [u8]) -> usize
    requires { length (listing words.now) ≤ length buffer.old }
    ensures value { result ≡ length (listing words.now) }
    ensures after { buffer.new ≡ listing words.now ++ drop (length (listing words.now)) buffer.old }
{
    // Kept as a loop: lines differ in length, so where one begins is known only from those before it.
    let mut end = 0;
    for word in words {
        let line = line(*word);
        let next = end + line.len();
        buffer[end..next].copy_from_slice(&line);
        end = next;
    }
    end
}

/// The line of a word; a word that stands for no instruction has none.
fn line(word: u16) -> Line
    ensures { result.items ≡ word_line word }
{
    match Instruction::try_from(word) {
        Ok(instruction) => instruction.line(),
        Err(_) => Line::new(),
    }
}
