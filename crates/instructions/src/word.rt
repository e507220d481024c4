//! The 16-bit word of an instruction: operation 4 bits, area 2, number 10.
ghost use Rattle.std.specs.Prelude.{◌≡◌, ◌<◌, codes, Some};
ghost use Rattle.std.specs.Result.{result_ok};
ghost use Rattle.instructions.specs.Words.{operand_code, operation_code, word_of, operand_of, shaped, instruction_of};
ghost use Rattle.instructions.specs.WordLaws.{WordLaws};

use super::instruction::{Instruction, Operand};
use points::{Area, Point};
use std::error::Error;
use std::fmt;

// No conversions by `From` and `TryFrom`: these are parts of a word, and nobody outside has them.
impl Operand {
    /// Area and number as a word has them; `TRUE` has area 0 and number 0.
    fn code(self) -> u16
        ensures value { result ≡ operand_code self }
        ensures bound { result < 4096 }
    {
        match self {
            Operand::True => 0,
            Operand::At(point) => u16::from(point.area) * 1024 + point.number as u16,
        }
    }

    /// The operand of an area and a number, if there is one.
    fn of(area: u16, number: u16) -> Option<Operand>
        ensures { result ≡ operand_of area number }
    {
        if area == 0 {
            return (number == 0).then_some(Operand::True);
        }
        let area = Area::try_from(area).ok()?;
        let number = u8::try_from(number).ok()?;
        Some(Operand::At(Point { area, number }))
    }
}

/// The word that a program keeps for the instruction.
impl From<Instruction> for u16 {
    ghost from_gives = { λ instruction word. word ≡ word_of instruction };

    fn from(instruction: Instruction) -> u16 {
        match instruction {
            Instruction::Load(operand) => operand.code(),
            Instruction::LoadNot(operand) => 0x1000 + operand.code(),
            Instruction::And(operand) => 0x2000 + operand.code(),
            Instruction::AndNot(operand) => 0x3000 + operand.code(),
            Instruction::Or(operand) => 0x4000 + operand.code(),
            Instruction::OrNot(operand) => 0x5000 + operand.code(),
            Instruction::AndOpen => 0x6000,
            Instruction::OrOpen => 0x7000,
            Instruction::Close => 0x8000,
            Instruction::Store(operand) => 0x9000 + operand.code(),
            Instruction::StoreNot(operand) => 0xa000 + operand.code(),
            Instruction::Set(operand) => 0xb000 + operand.code(),
            Instruction::Reset(operand) => 0xc000 + operand.code(),
        }
    }
}

/// A word stands for no instruction.
#[derive(Clone, Copy, Debug, PartialEq, Eq)]
pub struct NotAnInstruction;

impl fmt::Display for NotAnInstruction {
    ghost output = { λ _. Some (codes "no instruction has this word") };

    fn fmt<W: fmt::Write>(&self, f: &mut fmt::Formatter<W>) -> fmt::Result {
        f.write_str("no instruction has this word")
    }
}

impl Error for NotAnInstruction {}

/// The instruction that a word stands for, if it stands for one.
impl TryFrom<u16> for Instruction {
    type Error = NotAnInstruction;

    ghost try_from_gives = { λ word answer. result_ok answer ≡ instruction_of word };

    fn try_from(word: u16) -> Result<Instruction, NotAnInstruction> {
        Operand::of(word / 1024 % 4, word % 1024)
            .and_then(|operand| shape(word / 4096, operand))
            .ok_or(NotAnInstruction)
    }
}

/// The instruction of an operation's number; a bracket takes no operand, so its word has area 0 and number 0.
fn shape(operation: u16, operand: Operand) -> Option<Instruction>
    ensures { result ≡ shaped operation operand }
{
    match (operation, operand) {
        (0, _) => Some(Instruction::Load(operand)),
        (1, _) => Some(Instruction::LoadNot(operand)),
        (2, _) => Some(Instruction::And(operand)),
        (3, _) => Some(Instruction::AndNot(operand)),
        (4, _) => Some(Instruction::Or(operand)),
        (5, _) => Some(Instruction::OrNot(operand)),
        (6, Operand::True) => Some(Instruction::AndOpen),
        (7, Operand::True) => Some(Instruction::OrOpen),
        (8, Operand::True) => Some(Instruction::Close),
        (9, _) => Some(Instruction::Store(operand)),
        (10, _) => Some(Instruction::StoreNot(operand)),
        (11, _) => Some(Instruction::Set(operand)),
        (12, _) => Some(Instruction::Reset(operand)),
        _ => None,
    }
}

/// The law on instructions and words, as a contract.
pub fn words_agree()
    ensures { WordLaws }
{}
