//! The calls of a controller.
use crate::answers::Answers;
use crate::command::Command;
use crate::fault::Cause;
use crate::fields::bytes_in;
use crate::notation::Notation;
use banks::Bank;
use controller::{Controller, Refusal};
use instructions::ShortBuffer;
use signals::Signal;

/// What every byte of a buffer holds before a writing.
const CLEAR: u8 = 0xee;

fn answer_reading<S: Notation>(
    answer: Result<S, Refusal>,
    answers: &mut Answers<'_>,
) -> Result<(), Cause> {
    match answer {
        Ok(signal) => {
            answers.text().push_str("ok ")?;
            signal.write(answers.text())?;
            answers.end()
        }
        Err(refusal) => answers.refused(refusal.number()),
    }
}

/// Scans over so many working signals.
fn scan<B: Bank>(
    controller: &mut Controller<B>,
    lent: usize,
    answers: &mut Answers<'_>,
) -> Result<(), Cause> {
    let mut work = vec![in answers.heap(); B::Kind::off(); lent]?;
    answers.call(controller.scan(&mut work))
}

/// All points, or the first refusal.
fn dump<B: Bank>(controller: &Controller<B>, answers: &mut Answers<'_>) -> Result<(), Cause>
where
    B::Kind: Notation,
{
    let mut signals = Vec::new(answers.heap());
    // Kept as a loop: a refused reading is an answer and a failed push an error, and a chain ends for one of them only.
    for index in 0..768 {
        match controller.read_point(index) {
            Ok(signal) => signals.push(signal)?,
            Err(refusal) => return answers.refused(refusal.number()),
        }
    }
    answers.text().push_str("ok ")?;
    Notation::write_list(signals.as_slice(), answers.text())?;
    answers.end()
}

/// Lends a buffer of so many bytes to a writing.
fn write<F: FnOnce(&mut [u8]) -> Result<usize, ShortBuffer>>(
    writing: F,
    size: usize,
    answers: &mut Answers<'_>,
) -> Result<(), Cause>
    requires { F.IsAlwaysCallable writing }
{
    let mut buffer = vec![in answers.heap(); CLEAR; size]?;
    let answer = writing(&mut buffer);
    answers.writing(answer, buffer.as_slice())
}

/// Performs one call, and writes its answer.
pub(crate) fn call<B: Bank>(
    controller: &mut Controller<B>,
    command: Command<'_, B::Kind>,
    answers: &mut Answers<'_>,
) -> Result<(), Cause>
where
    B::Kind: Notation,
{
    match command {
        Command::Card(field) => {
            let card = bytes_in(answers.heap(), field)?;
            answers.install("card", controller.install_card(card.as_slice()))
        }
        Command::Listing(field) => {
            let listing = bytes_in(answers.heap(), field)?;
            answers.install("listing", controller.install_listing(listing.as_slice()))
        }
        Command::Set(input, signal) => answers.call(controller.set_input(input, signal)),
        Command::Read(index) => answer_reading(controller.read_point(index), answers),
        Command::Scan(lent) => scan(controller, lent, answers),
        Command::WriteListing(size) => {
            write(|buffer| controller.write_listing(buffer), size, answers)
        }
        Command::WriteStatus(size) => {
            write(|buffer| controller.write_status(buffer), size, answers)
        }
        Command::Dump => dump(controller, answers),
        _ => Err(Cause::MadeAlready),
    }
}
