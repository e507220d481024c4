//! One line of a listing, without its end.
ghost use Rattle.std.specs.Prelude.{◌≡◌, ◌<◌, length, MatchOption};
ghost use Rattle.listings.specs.LineReading.{byte_in, named, bare, line_read};

use super::operand::read_operand;
use instructions::{Instruction, Operand};

/// The instruction that a line says, if it says one.
pub(crate) fn read_line(text: &[u8]) -> Option<Instruction>
    ensures { result ≡ line_read text.now }
{
    let Some(end) = find_byte(text, b' ') else {
        return instruction_named(text, Operand::True).filter(|instruction| is_bracket(
            *instruction,
        ));
    };
    let operand = read_operand(&text[end + 1..])?;
    instruction_named(&text[..end], operand).filter(|instruction| !is_bracket(*instruction))
}

/// Where a byte stands first, if it is there.
pub(crate) fn find_byte(text: &[u8], byte: u8) -> Option<usize>
    ensures { MatchOption result (byte_in byte text.now ≡ length text.now) (λ end. (end ≡ byte_in byte text.now) × (end < length text.now)) }
{
    text.iter().position(|b| *b == byte)
}

/// A bracket stands without an operand, and nothing else does.
fn is_bracket(instruction: Instruction) -> bool
    ensures { result ≡ bare instruction }
{
    matches!(
        instruction,
        Instruction::AndOpen | Instruction::OrOpen | Instruction::Close
    )
}

/// The instruction with this mnemonic, onto the operand.
fn instruction_named(name: &[u8], operand: Operand) -> Option<Instruction>
    ensures { result ≡ named name.now operand }
{
    match name {
        b"LD" => Some(Instruction::Load(operand)),
        b"LDN" => Some(Instruction::LoadNot(operand)),
        b"AND" => Some(Instruction::And(operand)),
        b"ANDN" => Some(Instruction::AndNot(operand)),
        b"OR" => Some(Instruction::Or(operand)),
        b"ORN" => Some(Instruction::OrNot(operand)),
        b"AND(" => Some(Instruction::AndOpen),
        b"OR(" => Some(Instruction::OrOpen),
        b")" => Some(Instruction::Close),
        b"ST" => Some(Instruction::Store(operand)),
        b"STN" => Some(Instruction::StoreNot(operand)),
        b"S" => Some(Instruction::Set(operand)),
        b"R" => Some(Instruction::Reset(operand)),
        _ => None,
    }
}
