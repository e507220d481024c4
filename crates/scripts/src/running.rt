//! Whole scripts.
use crate::answers::Answers;
use crate::arranging::arrange;
use crate::calling::call;
use crate::command::{Command, command_in};
use crate::fault::{Cause, ScriptFault};
use crate::fields::{Fields, bytes_in};
use crate::line::{Lines, begins, kind_in, lines_of};
use crate::memory::Memory;
use crate::notation::Notation;
use banks::{Bank, OpenBank, PackedBank};
use controller::Controller;
use piles::Pile;
use signals::{Doubtful, Plain};
use std::alloc::Global;

/// Performs the calls of a controller.
fn run_calls<B: Bank + Drop>(
    mut controller: Controller<B>,
    lines: Lines<'_>,
    answers: &mut Answers<'_>,
) -> Result<(), ScriptFault>
where
    B::Kind: Notation,
{
    for (at, line) in lines.texts.iter().enumerate() {
        command_in(*line)
            .and_then(|command| call(&mut controller, command, answers))
            .map_err(|cause| lines.fault(at, cause))?;
    }
    Ok(())
}

/// Performs the commands on a bank: those before a controller is made of it, and those after.
fn run_bank<B: Bank + Memory + Drop>(
    bank: B,
    lines: Lines<'_>,
    answers: &mut Answers<'_>,
) -> Result<(), ScriptFault>
where
    B::Kind: Notation,
{
    let mut pile = Pile::over(bank);
    for (at, line) in lines.texts.iter().enumerate() {
        let command = command_in(*line).map_err(|cause| lines.fault(at, cause))?;
        if let Command::Make = command {
            let calls = Lines {
                number: lines.number.saturating_add(at).saturating_add(1),
                texts: &lines.texts[at + 1..],
            };
            return run_calls(Controller::make(pile), calls, answers);
        }
        pile = arrange(pile, command, answers).map_err(|cause| lines.fault(at, cause))?;
    }
    Ok(())
}

/// The memory that an open bank is lent.
fn cells_in<S: Notation>(heap: Global, mut fields: Fields<'_>) -> Result<Vec<S>, Cause> {
    let cells = S::cells_in(heap, &mut fields)?;
    fields.end()?;
    Ok(cells)
}

/// The memory that a packed bank is lent.
fn packed_in(heap: Global, mut fields: Fields<'_>) -> Result<Vec<u8>, Cause> {
    let bytes = bytes_in(heap, fields.field()?)?;
    fields.end()?;
    Ok(bytes)
}

/// The banks that a script can name.
#[derive(Clone, Copy)]
enum Described<'a> {
    Open(Fields<'a>),
    Packed(Fields<'a>),
}

/// The bank that a line describes, whose memory its fields say.
fn bank_in<S: Notation>(line: &str) -> Result<Described<'_>, Cause> {
    let mut fields = Fields::of(line);
    if fields.field()? != "bank" {
        return Err(Cause::NoBank);
    }
    match fields.field()? {
        "open" => Ok(Described::Open(fields)),
        "packed" if S::has_packed_bank() => Ok(Described::Packed(fields)),
        _ => Err(Cause::NoSuchKind),
    }
}

/// Performs a section: the first line describes a bank, and the commands that follow are for it.
fn run_section<S: Notation>(
    section: Lines<'_>,
    answers: &mut Answers<'_>,
) -> Result<(), ScriptFault> {
    let Some((first, rest)) = section.split_first() else {
        return Ok(());
    };
    match bank_in::<S>(first).map_err(|cause| section.fault(0, cause))? {
        Described::Open(fields) => {
            let mut cells = cells_in::<S>(answers.heap(), fields).map_err(|cause| section.fault(
                0, cause,
            ))?;
            run_bank(OpenBank::over(&mut cells), rest, answers)
        }
        Described::Packed(fields) => {
            let mut bytes = packed_in(answers.heap(), fields).map_err(|cause| section.fault(
                0, cause,
            ))?;
            run_bank(PackedBank::over(&mut bytes), rest, answers)
        }
    }
}

/// Performs the commands on one kind, bank after bank.
fn run_kind<S: Notation>(lines: Lines<'_>, answers: &mut Answers<'_>) -> Result<(), ScriptFault> {
    let mut number = lines.number;
    for texts in lines.texts.chunk_by(|_, next| !begins(*next, "bank")) {
        run_section::<S>(Lines { number, texts }, answers)?;
        number = number.saturating_add(texts.len());
    }
    Ok(())
}

/// Performs a script section by section, each on the kind that its first line names, if `run` knows that kind.
fn run_sections<F>(
    heap: Global,
    text: &[u8],
    out: &mut String,
    mut run: F,
) -> Result<(), ScriptFault>
where
    F: FnMut(&str, Lines<'_>, &mut Answers<'_>) -> Option<Result<(), ScriptFault>>,
    requires { F.IsAlwaysCallable run }
{
    let lines = lines_of(heap, text)?;
    let mut answers = Answers::after(out);
    let mut number = 1usize;
    for texts in lines.chunk_by(|_, next| !begins(*next, "kind")) {
        let section = Lines { number, texts };
        let Some((first, rest)) = section.split_first() else {
            return Ok(());
        };
        let kind = kind_in(first).map_err(|cause| section.fault(0, cause))?;
        match run(kind, rest, &mut answers) {
            Some(outcome) => outcome?,
            None => return Err(section.fault(0, Cause::NoSuchKind)),
        }
        number = number.saturating_add(texts.len());
    }
    Ok(())
}

/// Performs a script on the plain and the doubtful kind, and appends the answers, as far as it goes.
pub fn run_script(heap: Global, text: &[u8], out: &mut String) -> Result<(), ScriptFault> {
    run_sections(heap, text, out, |kind, lines, answers| match kind {
        "plain" => Some(run_kind::<Plain>(lines, answers)),
        "doubtful" => Some(run_kind::<Doubtful>(lines, answers)),
        _ => None,
    })
}

/// Performs a script on one kind, and appends the answers, as far as it goes.
pub fn run_script_on<S: Notation>(
    heap: Global,
    text: &[u8],
    out: &mut String,
) -> Result<(), ScriptFault> {
    run_sections(heap, text, out, |kind, lines, answers| {
        if kind == S::name() {
            Some(run_kind::<S>(lines, answers))
        } else {
            None
        }
    })
}
