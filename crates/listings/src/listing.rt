//! Reading a listing.
ghost use Rattle.std.specs.Prelude.{◌≡◌, ◌<◌, ◌≤◌, length};
ghost use Rattle.listings.specs.Reading.{verdict};
ghost use Rattle.listings.specs.Progress.{refused_there, LineAdded, NextRead};
ghost use Rattle.listings.specs.Answers.{words_in, Exact, Replaced};

use super::fault::{Cause, ListingFault};
use super::line::{find_byte, read_line};
use programs::{Draft, Program};

/// Where the reading of a listing stands: the byte and the line that come next, counted from 0.
#[derive(Clone, Copy)]
struct Position {
    byte: usize,
    line: usize,
}

impl Position {
    /// The refusal of what comes next.
    fn refused(self, cause: Cause) -> ListingFault
        ensures { result ≡ refused_there self cause }
    {
        ListingFault {
            cause,
            byte: self.byte,
            line: self.line,
        }
    }
}

/// The program that a listing says, if each line is one, the rules allow it where it stands, and they may end there.
#[tactic(auto, using(crate::proofs::Laws::exact))]
pub fn read(bytes: &[u8]) -> Result<Program, ListingFault>
    ensures value { words_in result ≡ verdict bytes.now }
    ensures exact { Exact bytes.now result }
{
    let mut draft = Draft::new();
    let mut at = Position { byte: 0, line: 0 };
    // Kept as a loop over positions: a refusal names its byte, which the lines of `split_inclusive` do not carry.
    while at.byte < bytes.len() {
        at = read_next(&mut draft, bytes, at)?;
    }
    draft
        .finish()
        .map_err(|fault| at.refused(Cause::Broken(fault)))
}

/// Reads a listing in place of a program, and answers rungs, words, greatest depth and the first rung with that depth.
/// A refusal alters nothing.
pub fn read_into(
    bytes: &[u8],
    program: &mut Program,
) -> Result<(usize, usize, usize, usize), ListingFault>
    ensures { Replaced bytes.now program.old result program.new }
{
    let staged = read(bytes)?;
    *program = staged;
    Ok(program.counts())
}

/// Reads the line that comes next, and answers where the reading stands behind it.
fn read_next(draft: &mut Draft, bytes: &[u8], at: Position) -> Result<Position, ListingFault>
    requires more { at.byte < length bytes.now }
    requires lines { at.line ≤ at.byte }
    ensures { NextRead bytes.now draft.old at result draft.new }
{
    let rest = &bytes[at.byte..];
    let Some(end) = find_byte(rest, b'\n') else {
        return Err(at.refused(Cause::NotALine));
    };
    // Kept as a match: behind `map_err` and `?` it was not proved which refusal is told, nor how far the draft has come.
    match add_line(draft, &rest[..end]) {
        Ok(()) => Ok(Position {
            byte: at.byte + end + 1,
            line: at.line + 1,
        }),
        Err(cause) => Err(at.refused(cause)),
    }
}

/// Adds the instruction that a line says to a draft; a refusal alters nothing.
fn add_line(draft: &mut Draft, text: &[u8]) -> Result<(), Cause>
    ensures { LineAdded draft.old text.now result draft.new }
{
    let instruction = read_line(text).ok_or(Cause::NotALine)?;
    draft.add(u16::from(instruction))?;
    Ok(())
}
