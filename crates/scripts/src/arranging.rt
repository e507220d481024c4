//! The commands before a controller is made: layers, marks, exchanges, readings and writes of the bank.
use crate::answers::Answers;
use crate::command::{Command, Place};
use crate::fault::Cause;
use crate::memory::Memory;
use crate::notation::Notation;
use banks::Bank;
use piles::{ArrangeFault, Pile};

/// A pile with a layer more.
fn laid<B: Drop>(pile: Result<Pile<B>, Pile<B>>) -> Result<Pile<B>, Cause> {
    pile.map_err(|_| Cause::TooHigh)
}

/// The answer to a mark or an exchange.
fn answer_arranged(
    answer: Result<(), ArrangeFault>,
    answers: &mut Answers<'_>,
) -> Result<(), Cause> {
    match answer {
        Ok(()) => answers.done(),
        Err(ArrangeFault::Refused(refusal)) => answers.refused(refusal.number()),
        Err(ArrangeFault::NoSuchLayer) => Err(Cause::NoSuchLayer),
    }
}

// Kept beside `exchange`: the layers at the two places differ in type, so one closure cannot be called on both.
fn mark<B: Bank>(
    pile: &mut Pile<B>,
    place: Place,
    input: usize,
    inverted: bool,
) -> Result<(), ArrangeFault> {
    match place {
        Place::Lower => pile.mark_lower(input, inverted),
        Place::Upper => pile.mark(input, inverted),
    }
}

fn exchange<B: Bank>(
    pile: &mut Pile<B>,
    place: Place,
    a: usize,
    b: usize,
) -> Result<(), ArrangeFault> {
    match place {
        Place::Lower => pile.exchange_lower(a, b),
        Place::Upper => pile.exchange(a, b),
    }
}

/// What a reading of the bank gives.
fn answer_look<S: Notation>(signal: Option<S>, answers: &mut Answers<'_>) -> Result<(), Cause> {
    match signal {
        Some(signal) => signal.write(answers.text())?,
        None => return answers.word("nothing"),
    }
    answers.end()
}

fn answer_memory<B: Bank + Memory>(pile: &Pile<B>, answers: &mut Answers<'_>) -> Result<(), Cause> {
    pile.bank().write_memory(answers.text())?;
    answers.end()
}

/// Performs a command on a pile, and gives the pile on.
pub(crate) fn arrange<B: Bank + Memory + Drop>(
    mut pile: Pile<B>,
    command: Command<'_, B::Kind>,
    answers: &mut Answers<'_>,
) -> Result<Pile<B>, Cause>
where
    B::Kind: Notation,
{
    match command {
        Command::LayStrip => return laid(pile.lay_strip()),
        Command::LayBoard => return laid(pile.lay_board()),
        Command::Mark(place, input, inverted) => {
            answer_arranged(mark(&mut pile, place, input, inverted), answers)?
        }
        Command::Exchange(place, a, b) => {
            answer_arranged(exchange(&mut pile, place, a, b), answers)?
        }
        Command::Count => answers.line(pile.count())?,
        Command::Look(index) => answer_look(pile.read(index), answers)?,
        // Whether the write altered a point.
        Command::Put(index, signal) => answers.word(if pile.write(index, signal) {
            "written"
        } else {
            "nothing"
        })?,
        Command::Memory => answer_memory(&pile, answers)?,
        _ => return Err(Cause::NotMade),
    }
    Ok(pile)
}
