//! The answers, a line each.
ghost use Rattle.std.specs.Prelude.{◌<◌};

use crate::fault::Cause;
use controller::{InstallFault, Refusal};
use instructions::ShortBuffer;
use std::alloc::Global;
use std::fmt;

/// The answers of a script so far, to which more are appended.
#[derive(Drop)]
pub(crate) struct Answers<'a> {
    text: &'a mut String,
}

impl<'a> Answers<'a> {
    pub(crate) fn after(text: &'a mut String) -> Answers<'a> {
        Answers { text }
    }

    /// The memory that the answers stand in, from which commands are lent theirs.
    pub(crate) fn heap(&self) -> Global {
        *self.text.allocator()
    }

    /// The text so far, to write a signal behind it.
    pub(crate) fn text(&mut self) -> &mut String {
        &mut *self.text
    }

    /// Ends a line.
    pub(crate) fn end(&mut self) -> Result<(), Cause> {
        self.text.push('\n')?;
        Ok(())
    }

    pub(crate) fn line<T: fmt::Display + Drop>(&mut self, said: T) -> Result<(), Cause> {
        writeln!(self.text, "{said}")?;
        Ok(())
    }

    /// A word that stands alone.
    // Pushed and not by `line`: nearly every answer is a word, and needs no formatter.
    pub(crate) fn word(&mut self, said: &str) -> Result<(), Cause> {
        self.text.push_str(said)?;
        self.end()
    }

    pub(crate) fn done(&mut self) -> Result<(), Cause> {
        self.word("ok")
    }

    /// A refusal that has no place.
    pub(crate) fn refused(&mut self, number: u8) -> Result<(), Cause> {
        writeln!(self.text, "no {number}")?;
        Ok(())
    }

    /// A setting or a scan.
    pub(crate) fn call(&mut self, answer: Result<(), Refusal>) -> Result<(), Cause> {
        match answer {
            Ok(()) => self.done(),
            Err(refusal) => self.refused(refusal.number()),
        }
    }

    /// An install: its four numbers, or number, which install, rung or line, bit or byte.
    pub(crate) fn install(
        &mut self,
        install: &str,
        answer: Result<(usize, usize, usize, usize), InstallFault>,
    ) -> Result<(), Cause> {
        match answer {
            Ok((rungs, words, depth, first)) => {
                writeln!(self.text, "ok {rungs} {words} {depth} {first}")?
            }
            Err(fault) => {
                let number = fault.number();
                let rung = fault.rung();
                let place = fault.place();
                writeln!(self.text, "no {number} {install} {rung} {place}")?
            }
        }
        Ok(())
    }

    /// A writing, and the whole buffer after it.
    pub(crate) fn writing(
        &mut self,
        answer: Result<usize, ShortBuffer>,
        buffer: &[u8],
    ) -> Result<(), Cause> {
        match answer {
            Ok(length) => write!(self.text, "ok {length} ")?,
            Err(short) => {
                let number = short.number();
                write!(self.text, "no {number} ")?
            }
        }
        write_bytes(buffer, self.text)?;
        self.end()
    }
}

/// A hexadecimal digit.
fn digit(value: u8) -> char
    requires { value < 16 }
{
    char::from(b"0123456789abcdef"[value as usize])
}

/// Two hexadecimal digits a byte; `-` for none.
// Not by `{:02x}`: with a formatter for each byte of a buffer this took three to six times as long.
pub(crate) fn write_bytes(bytes: &[u8], out: &mut String) -> Result<(), Cause> {
    if bytes.is_empty() {
        out.push('-')?;
    }
    for byte in bytes {
        out.push(digit(*byte / 16))?;
        out.push(digit(*byte % 16))?;
    }
    Ok(())
}
