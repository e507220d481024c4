//! Translates ladder cards, reads listings back, and runs scripts of calls on a controller.
#![tactic(auto)]

mod help;
mod output;

use banks::OpenBank;
use controller::{Controller, InstallFault};
use help::print_help;
use output::{print_controller, print_refusal};
use scripts::run_script;
use signals::Plain;
use std::io::{Read, Write};
use std::process::ExitCode;
use std::{env, io};

/// What the arguments ask for.
#[derive(Clone, Copy)]
enum Command {
    Card,
    Listing,
    Run,
    Help,
}

/// The command that a word asks for, if it is one.
// A match and no `FromStr`: of a word that is no command nothing more is said.
fn command_of(word: &str) -> Option<Command> {
    match word {
        "listing" => Some(Command::Listing),
        "run" => Some(Command::Run),
        "--help" => Some(Command::Help),
        _ => None,
    }
}

/// The command that the arguments ask for, if they do: a card is translated where there are none.
fn chosen(rt: &HostRuntime) -> io::Result<Option<Command>> {
    let mut args = env::args(rt)?;
    let _program = args.next();
    let Some(word) = args.next() else {
        return Ok(Some(Command::Card));
    };
    if args.next().is_some() {
        return Ok(None);
    }
    Ok(command_of(word.as_str()))
}

/// All of standard input; where it cannot be read, that is said on standard error.
fn input(rt: &HostRuntime) -> io::Result<Vec<u8>> {
    let mut bytes = Vec::new(rt.alloc());
    if let Err(error) = rt.stdin().read_to_end(&mut bytes) {
        eprintln!(rt; "startline: standard input cannot be read")?;
        return Err(error);
    }
    Ok(bytes)
}

/// Installs standard input as a card or as a listing, and prints what the install left, or its refusal.
fn translate<F>(rt: &HostRuntime, install: F) -> io::Result<ExitCode>
where
    F: FnOnce(
        &mut Controller<OpenBank<'_, Plain>>,
        &[u8],
    ) -> Result<(usize, usize, usize, usize), InstallFault>,
    requires { F.IsAlwaysCallable install }
{
    let bytes = input(rt)?;
    let mut points = [Plain::Off; 768];
    let mut controller = Controller::make(OpenBank::over(&mut points));
    match install(&mut controller, bytes.as_slice()) {
        Ok(_) => {
            print_controller(rt, &controller)?;
            Ok(ExitCode::SUCCESS)
        }
        Err(fault) => {
            print_refusal(rt, fault)?;
            Ok(ExitCode::FAILURE)
        }
    }
}

/// Performs the script on standard input, prints the answers, and says on standard error at which line it went wrong.
fn run(rt: &HostRuntime) -> io::Result<ExitCode> {
    let script = input(rt)?;
    let mut answers = String::new(rt.alloc());
    let outcome = run_script(rt.alloc(), script.as_slice(), &mut answers);
    rt.stdout().write_all(answers.as_bytes())?;
    match outcome {
        Ok(()) => Ok(ExitCode::SUCCESS),
        Err(fault) => {
            eprintln!(rt; "startline: line {}: {}", fault.line, fault.cause)?;
            Ok(ExitCode::FAILURE)
        }
    }
}

fn perform(rt: &HostRuntime) -> io::Result<ExitCode> {
    match chosen(rt)? {
        Some(Command::Card) => translate(rt, |controller, card| controller.install_card(card)),
        Some(Command::Listing) => translate(
            rt,
            |controller, listing| controller.install_listing(listing),
        ),
        Some(Command::Run) => run(rt),
        Some(Command::Help) => {
            print_help(rt)?;
            Ok(ExitCode::SUCCESS)
        }
        None => {
            eprintln!(rt; "startline: unknown argument; see startline --help")?;
            Ok(ExitCode::FAILURE)
        }
    }
}

/// An error of input or output ends the program with status 1 and no words of its own.
fn main(rt: HostRuntime) -> ExitCode {
    perform(&rt).unwrap_or(ExitCode::FAILURE)
}
