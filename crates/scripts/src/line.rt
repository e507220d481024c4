//! The lines of a script, and the sections that they stand in.
use crate::fault::{Cause, ScriptFault};
use crate::fields::Fields;
use std::alloc::Global;
use std::str::from_utf8;

/// Lines of a script, one after the other.
// Only the first is numbered: a number beside each would take half as much memory again.
#[derive(Clone, Copy)]
pub(crate) struct Lines<'a> {
    /// The number of the first line, counted from 1.
    pub(crate) number: usize,
    pub(crate) texts: &'a [&'a str],
}

impl<'a> Lines<'a> {
    /// The first line, and those behind it.
    pub(crate) fn split_first(self) -> Option<(&'a str, Lines<'a>)> {
        let (first, rest) = self.texts.split_first()?;
        let rest = Lines {
            number: self.number.saturating_add(1),
            texts: rest,
        };
        Some((*first, rest))
    }

    /// What is wrong, at the line so many behind the first.
    pub(crate) fn fault(self, behind: usize, cause: Cause) -> ScriptFault {
        ScriptFault {
            line: self.number.saturating_add(behind),
            cause,
        }
    }
}

/// Whether the first word of a line is this one.
// Without looking for the end of the word: every line is asked for two words, and hardly any begins with one.
pub(crate) fn begins(text: &str, word: &str) -> bool {
    text.strip_prefix(word)
        .is_some_and(|rest| rest.is_empty() || rest.starts_with(' '))
}

/// The kind that a line names.
pub(crate) fn kind_in(text: &str) -> Result<&str, Cause> {
    let mut fields = Fields::of(text);
    if fields.field()? != "kind" {
        return Err(Cause::NoBank);
    }
    let kind = fields.field()?;
    fields.end()?;
    Ok(kind)
}

/// The lines of a script; a byte that is not text is no command.
pub(crate) fn lines_of<'a>(heap: Global, text: &'a [u8]) -> Result<Vec<&'a str>, ScriptFault> {
    let text = from_utf8(text).map_err(|error| ScriptFault {
        line: line_at(text, error.valid_up_to()),
        cause: Cause::NotACommand,
    })?;
    text.lines().collect(heap).map_err(|_| ScriptFault {
        line: 1,
        cause: Cause::NoMemory,
    })
}

/// The line of a byte, counted from 1.
fn line_at(text: &[u8], at: usize) -> usize {
    text.iter()
        .take(at)
        .filter(|byte| **byte == b'\n')
        .count()
        .saturating_add(1)
}
