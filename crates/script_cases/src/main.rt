//! Performs a script of many calls, whose answers were made by an independent program.
#![tactic(auto)]

use scripts::run_script;
use std::io;
use std::io::{Read, Write};

fn main(rt: HostRuntime) -> io::Result<()> {
    let mut script = Vec::new(rt.alloc());
    rt.stdin().read_to_end(&mut script)?;
    let mut answers = String::new(rt.alloc());
    let outcome = run_script(rt.alloc(), script.as_slice(), &mut answers);
    rt.stdout().write_all(answers.as_bytes())?;
    if let Err(fault) = outcome {
        println!(rt; "line {}: {}", fault.line, fault.cause)?;
    }
    Ok(())
}
