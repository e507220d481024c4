//! The commands of a script.
use crate::fault::Cause;
use crate::fields::Fields;
use crate::notation::Notation;

/// A layer of a pile, the lowest first.
#[derive(Clone, Copy)]
pub(crate) enum Place {
    Lower,
    Upper,
}

/// One command, after the bank.
#[derive(Clone, Copy)]
pub(crate) enum Command<'a, S> {
    LayStrip,
    LayBoard,
    Mark(Place, usize, bool),
    Exchange(Place, usize, usize),
    Count,
    Look(usize),
    Put(usize, S),
    Memory,
    Make,
    Card(&'a str),
    Listing(&'a str),
    Set(usize, S),
    Read(usize),
    Scan(usize),
    WriteListing(usize),
    WriteStatus(usize),
    Dump,
}

fn place_in(fields: &mut Fields<'_>) -> Result<Place, Cause> {
    match fields.number()? {
        0 => Ok(Place::Lower),
        1 => Ok(Place::Upper),
        _ => Err(Cause::NoSuchLayer),
    }
}

fn flag_in(fields: &mut Fields<'_>) -> Result<bool, Cause> {
    match fields.number()? {
        0 => Ok(false),
        1 => Ok(true),
        _ => Err(Cause::NotACommand),
    }
}

fn signal_in<S: Notation>(fields: &mut Fields<'_>) -> Result<S, Cause> {
    S::signal_in(fields.field()?).ok_or(Cause::NotACommand)
}

/// The command that arranges or asks a bank, if it is one.
fn bank_command<'a, S: Notation>(
    name: &str,
    fields: &mut Fields<'a>,
) -> Result<Option<Command<'a, S>>, Cause> {
    let command = match name {
        "strip" => Command::LayStrip,
        "patch" => Command::LayBoard,
        "mark" => {
            let place = place_in(fields)?;
            let input = fields.number()?;
            Command::Mark(place, input, flag_in(fields)?)
        }
        "exchange" => {
            let place = place_in(fields)?;
            let a = fields.number()?;
            Command::Exchange(place, a, fields.number()?)
        }
        "count" => Command::Count,
        "look" => Command::Look(fields.number()?),
        "put" => {
            let index = fields.number()?;
            Command::Put(index, signal_in(fields)?)
        }
        "memory" => Command::Memory,
        "make" => Command::Make,
        _ => return Ok(None),
    };
    Ok(Some(command))
}

/// The command that calls a controller.
fn call_command<'a, S: Notation>(
    name: &str,
    fields: &mut Fields<'a>,
) -> Result<Command<'a, S>, Cause> {
    let command = match name {
        "card" => Command::Card(fields.field()?),
        "listing" => Command::Listing(fields.field()?),
        "set" => {
            let input = fields.number()?;
            Command::Set(input, signal_in(fields)?)
        }
        "read" => Command::Read(fields.number()?),
        "scan" => Command::Scan(fields.number()?),
        "writelisting" => Command::WriteListing(fields.number()?),
        "writestatus" => Command::WriteStatus(fields.number()?),
        "dump" => Command::Dump,
        _ => return Err(Cause::NotACommand),
    };
    Ok(command)
}

/// The command of a line, whose fields are just those that it has.
pub(crate) fn command_in<'a, S: Notation>(line: &'a str) -> Result<Command<'a, S>, Cause> {
    let mut fields = Fields::of(line);
    let name = fields.field()?;
    let command = match bank_command(name, &mut fields)? {
        Some(command) => command,
        None => call_command(name, &mut fields)?,
    };
    fields.end()?;
    Ok(command)
}
