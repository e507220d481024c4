//! The calls of a controller, and their answers.
use super::install_fault::InstallFault;
use super::refusal::Refusal;
use instructions::ShortBuffer;

/// One call of a controller.
#[derive(Clone, Copy)]
pub enum Call<'a, S> {
    InstallCard(&'a [u8]),
    InstallListing(&'a [u8]),
    /// Sets the input of a number to a signal.
    SetInput(usize, S),
    /// Reads the point at an index.
    ReadPoint(usize),
    /// Scans with so many of the working signals lent.
    Scan(usize),
    /// Writes the listing into so many of the bytes lent.
    WriteListing(usize),
    /// Writes the status line into so many of the bytes lent.
    WriteStatus(usize),
}

/// What a call answers: what the method of that call returned.
#[derive(Clone, Copy)]
pub enum Answer<S> {
    /// To an install: rungs, words, greatest depth, and the first rung with that depth.
    Install(Result<(usize, usize, usize, usize), InstallFault>),
    /// To a setting or a scan.
    Change(Result<(), Refusal>),
    /// To a reading: the signal of the point.
    Reading(Result<S, Refusal>),
    /// To a writing: how many bytes were written.
    Writing(Result<usize, ShortBuffer>),
}
