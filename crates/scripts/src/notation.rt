//! How signals are written in scripts.
use crate::fault::Cause;
use crate::fields::{Fields, listed};
use signals::{Doubtful, Plain, Signal};
use std::alloc::Global;

/// A kind that scripts can speak of.
pub trait Notation: Signal {
    /// The name of the kind.
    fn name() -> &'static str;

    /// Whether the packed bank keeps this kind.
    fn has_packed_bank() -> bool;

    /// The signal that a field says, if it says one.
    fn signal_in(field: &str) -> Option<Self>;

    /// The cells of an open bank.
    // Memory and fields stay two parameters: fields follow the cells, and are read on without memory.
    fn cells_in(heap: Global, fields: &mut Fields<'_>) -> Result<Vec<Self>, Cause>;

    /// Writes a signal.
    fn write(self, out: &mut String) -> Result<(), Cause>;

    /// Writes a list of signals.
    fn write_list(signals: &[Self], out: &mut String) -> Result<(), Cause>;
}

/// A kind whose signals are one letter each.
// A trait and no `From` for `char`: neither `char` nor the kinds are of this crate.
trait Lettered: Signal {
    fn name() -> &'static str;

    fn has_packed_bank() -> bool;

    fn letter(self) -> char;

    fn of_letter(letter: char) -> Option<Self>;
}

impl Lettered for Plain {
    fn name() -> &'static str {
        "plain"
    }

    fn has_packed_bank() -> bool {
        false
    }

    fn letter(self) -> char {
        match self {
            Plain::Off => '0',
            Plain::On => '1',
        }
    }

    fn of_letter(letter: char) -> Option<Plain> {
        match letter {
            '0' => Some(Plain::Off),
            '1' => Some(Plain::On),
            _ => None,
        }
    }
}

impl Lettered for Doubtful {
    fn name() -> &'static str {
        "doubtful"
    }

    fn has_packed_bank() -> bool {
        true
    }

    fn letter(self) -> char {
        match self {
            Doubtful::Off => '0',
            Doubtful::Unknown => '?',
            Doubtful::On => '1',
        }
    }

    fn of_letter(letter: char) -> Option<Doubtful> {
        match letter {
            '0' => Some(Doubtful::Off),
            '1' => Some(Doubtful::On),
            '?' => Some(Doubtful::Unknown),
            _ => None,
        }
    }
}

/// A signal is its letter, a list of signals a letter each, or `-` for none.
impl<S: Lettered> Notation for S {
    fn name() -> &'static str {
        S::name()
    }

    fn has_packed_bank() -> bool {
        S::has_packed_bank()
    }

    fn signal_in(field: &str) -> Option<S> {
        let mut letters = field.chars();
        let signal = S::of_letter(letters.next()?)?;
        match letters.next() {
            None => Some(signal),
            Some(_) => None,
        }
    }

    fn cells_in(heap: Global, fields: &mut Fields<'_>) -> Result<Vec<S>, Cause> {
        let mut cells = Vec::new(heap);
        for letter in listed(fields.field()?)?.chars() {
            cells.push(S::of_letter(letter).ok_or(Cause::NotACommand)?)?;
        }
        Ok(cells)
    }

    fn write(self, out: &mut String) -> Result<(), Cause> {
        out.push(self.letter())?;
        Ok(())
    }

    fn write_list(signals: &[S], out: &mut String) -> Result<(), Cause> {
        if signals.is_empty() {
            out.push('-')?;
        }
        for signal in signals {
            out.push(signal.letter())?;
        }
        Ok(())
    }
}
