//! Judging instructions.
ghost use Rattle.std.specs.Prelude.{◌≡◌, ◌+◌, ◌-◌, ◌≤◌, if◌then◌else◌, nat_eq};
ghost use Rattle.programs.specs.Rules.{start, drives, coil_drives, counted, step, verdict, after, concluded};
ghost use Rattle.programs.specs.Places.{place_of};

use super::{Checker, State};
use crate::fault::RuleFault;
use instructions::{Instruction, Operand};
use points::{Area, Point};

/// Whether a coil may drive the operand: an output or a marker.
fn drivable(operand: Operand) -> bool
    ensures { result ≡ drives operand }
{
    matches!(
        operand,
        Operand::At(Point {
            area: Area::Output | Area::Marker,
            ..
        })
    )
}

/// Whether the instruction is a coil that may drive its operand.
fn coil_drives(instruction: Instruction) -> bool
    ensures { result ≡ coil_drives instruction }
{
    matches!(
        instruction,
        Instruction::Store(operand)
            | Instruction::StoreNot(operand)
            | Instruction::Set(operand)
            | Instruction::Reset(operand) if drivable(operand)
    )
}

impl Checker {
    /// No instruction has come yet.
    pub fn new() -> Checker
        ensures { place_of result ≡ start }
    {
        Checker {
            state: State::Begun,
            brackets: 0,
            rungs: 0,
            words: 0,
        }
    }

    /// Takes the instruction if the rules allow it here; a refusal alters nothing.
    pub fn step(&mut self, instruction: Instruction) -> Result<(), RuleFault>
        ensures value { result ≡ verdict (step (place_of self.old) instruction) }
        ensures after { place_of self.new ≡ after (step (place_of self.old) instruction) (place_of self.old) }
    {
        let brackets = self.brackets;
        let rungs = self.rungs;
        match (self.state, instruction) {
            (
                State::Begun | State::Opened | State::Stored,
                Instruction::Load(_) | Instruction::LoadNot(_),
            ) => { self.enter(State::Joining, brackets, rungs_with(brackets, rungs)) }
            (
                State::Joining | State::Stored,
                Instruction::And(_)
                | Instruction::AndNot(_)
                | Instruction::Or(_)
                | Instruction::OrNot(_),
            ) => self.enter(State::Joining, brackets, rungs),
            (State::Joining | State::Stored, Instruction::AndOpen | Instruction::OrOpen) => {
                self.enter(State::Opened, brackets + 1, rungs)
            }
            (State::Joining, Instruction::Close) if brackets > 0 => self.enter(
                State::Joining,
                brackets - 1,
                rungs,
            ),
            (
                State::Joining | State::Stored,
                Instruction::Store(_)
                | Instruction::StoreNot(_)
                | Instruction::Set(_)
                | Instruction::Reset(_),
            ) if brackets == 0 && coil_drives(instruction) => self.enter(
                State::Stored,
                brackets,
                rungs,
            ),
            _ => Err(RuleFault::NotAllowed),
        }
    }

    /// Whether the instructions may end here.
    pub fn finish(self) -> Result<(), RuleFault>
        ensures { result ≡ concluded (place_of self) }
    {
        match self.state {
            State::Begun | State::Stored => Ok(()),
            State::Opened | State::Joining => Err(RuleFault::Unfinished),
        }
    }

    /// Enters an allowed instruction, unless it passes a limit.
    fn enter(&mut self, state: State, brackets: usize, rungs: usize) -> Result<(), RuleFault>
        ensures value { result ≡ verdict (counted (place_of self.old) state brackets rungs) }
        ensures after { place_of self.new ≡ after (counted (place_of self.old) state brackets rungs) (place_of self.old) }
    {
        if brackets > 15 {
            return Err(RuleFault::TooDeep);
        }
        if rungs > 128 {
            return Err(RuleFault::TooManyRungs);
        }
        if self.words >= 4096 {
            return Err(RuleFault::TooLong);
        }
        self.state = state;
        self.brackets = brackets;
        self.rungs = rungs;
        self.words += 1;
        Ok(())
    }
}

/// A load with no bracket open starts a rung.
fn rungs_with(brackets: usize, rungs: usize) -> usize
    requires { rungs ≤ 128 }
    ensures { result ≡ (if nat_eq brackets 0 then rungs + 1 else rungs) }
{
    if brackets == 0 { rungs + 1 } else { rungs }
}
