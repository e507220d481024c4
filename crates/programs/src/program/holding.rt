//! What a program says of itself.
ghost use Rattle.std.specs.Prelude.{◌≡◌, []};
ghost use Rattle.instructions.specs.Lines.{listing};
ghost use Rattle.instructions.specs.Reports.{status_line, Written};
ghost use Rattle.programs.specs.Counts.{starts_of, counts as counts_of};
ghost use Rattle.programs.specs.Programs.{held};

use super::Program;
use crate::starts::Starts;
use crate::survey;
use instructions::{ShortBuffer, Store};

impl Program {
    /// The program of no rungs.
    pub fn empty() -> Program
        ensures { held result ≡ [] }
    {
        Program {
            words: Store::new(),
            starts: Starts::new(),
        }
    }

    /// Its words.
    pub fn words(&self) -> &[u16]
        ensures { result.now ≡ held self.now }
    {
        self.words.words()
    }

    /// Where its rungs start.
    pub fn starts(&self) -> &[u16]
        ensures { result.now ≡ starts_of (held self.now) }
    {
        self.starts.places()
    }

    /// Rungs, words, greatest depth, and the first rung with that depth; 0 if there are no rungs.
    pub fn counts(&self) -> (usize, usize, usize, usize)
        ensures { result ≡ counts_of (held self.now) }
    {
        survey::counts(self.words())
    }

    /// Writes its listing: the length is answered, later bytes stay.
    pub fn write_listing(&self, buffer: &mut [u8]) -> Result<usize, ShortBuffer>
        ensures { Written (listing (held self.now)) buffer.old result buffer.new }
    {
        self.words.write_listing(buffer)
    }

    /// Writes the status line: its length is answered, later bytes stay.
    pub fn write_status(&self, buffer: &mut [u8]) -> Result<usize, ShortBuffer>
        ensures { Written (status_line (counts_of (held self.now))) buffer.old result buffer.new }
    {
        instructions::write_status(self.counts(), buffer)
    }
}
