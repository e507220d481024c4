//! Why a script is not performed further.
use std::alloc::{AllocError, AllocFailed};
use std::fmt;

/// What is wrong with a line.
#[derive(Clone, Copy)]
pub enum Cause {
    /// The line is no command, or its fields are not those of the command.
    NotACommand,
    /// The kind is not known here.
    NoSuchKind,
    /// A kind, and then a bank, come before everything else.
    NoBank,
    /// The call comes before `make`.
    NotMade,
    /// The command comes after `make`.
    MadeAlready,
    /// Two layers stand already.
    TooHigh,
    /// The pile has no such layer.
    NoSuchLayer,
    /// There is not enough memory.
    NoMemory,
}

/// A line, counted from 1, and what is wrong with it.
#[derive(Clone, Copy)]
pub struct ScriptFault {
    pub line: usize,
    pub cause: Cause,
}

impl fmt::Display for Cause {
    fn fmt<W: fmt::Write>(&self, f: &mut fmt::Formatter<W>) -> fmt::Result {
        match self {
            Cause::NotACommand => write!(f, "not a command with its fields"),
            Cause::NoSuchKind => write!(f, "no such kind of signal or bank here"),
            Cause::NoBank => write!(f, "a kind and a bank come first"),
            Cause::NotMade => write!(f, "no controller is made yet"),
            Cause::MadeAlready => write!(f, "the controller is made already"),
            Cause::TooHigh => write!(f, "two layers stand already"),
            Cause::NoSuchLayer => write!(f, "there is no such layer"),
            Cause::NoMemory => write!(f, "there is not enough memory"),
        }
    }
}

impl From<AllocError> for Cause {
    fn from(_e: AllocError) -> Cause {
        Cause::NoMemory
    }
}

impl<T: Drop> From<AllocFailed<T>> for Cause {
    fn from(_e: AllocFailed<T>) -> Cause {
        Cause::NoMemory
    }
}

impl From<fmt::Error> for Cause {
    fn from(_e: fmt::Error) -> Cause {
        Cause::NoMemory
    }
}
