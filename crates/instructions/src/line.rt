//! The lines of a listing.
ghost use Rattle.std.specs.Prelude.{◌≡◌, ◌≤◌, ◌++◌, length};
ghost use Rattle.arrayvec.specs.ArrayVec.{array_vec_len};
ghost use Rattle.instructions.specs.Lines.{letter, mnemonic, shown, operand_text, line_of};

use super::instruction::{Instruction, Operand};
use super::text::{add, add_number, digits_in};
use arrayvec::ArrayVec;
use points::Area;

/// A line with its end; the longest, as `ANDN %Q255`, has 11 bytes.
pub(crate) type Line = ArrayVec<u8, 11>;

impl Instruction {
    fn mnemonic(self) -> &'static [u8]
        ensures value { result.now ≡ mnemonic self }
        ensures bound { length result.now ≤ 4 }
    {
        match self {
            Instruction::Load(_) => b"LD",
            Instruction::LoadNot(_) => b"LDN",
            Instruction::And(_) => b"AND",
            Instruction::AndNot(_) => b"ANDN",
            Instruction::Or(_) => b"OR",
            Instruction::OrNot(_) => b"ORN",
            Instruction::AndOpen => b"AND(",
            Instruction::OrOpen => b"OR(",
            Instruction::Close => b")",
            Instruction::Store(_) => b"ST",
            Instruction::StoreNot(_) => b"STN",
            Instruction::Set(_) => b"S",
            Instruction::Reset(_) => b"R",
        }
    }

    /// The operand that the line shows; a bracket shows none.
    fn operand(self) -> Option<Operand>
        ensures { result ≡ shown self }
    {
        match self {
            Instruction::AndOpen | Instruction::OrOpen | Instruction::Close => None,
            Instruction::Load(operand)
            | Instruction::LoadNot(operand)
            | Instruction::And(operand)
            | Instruction::AndNot(operand)
            | Instruction::Or(operand)
            | Instruction::OrNot(operand)
            | Instruction::Store(operand)
            | Instruction::StoreNot(operand)
            | Instruction::Set(operand)
            | Instruction::Reset(operand) => Some(operand),
        }
    }

    /// How many bytes the line has, its end included.
    pub(crate) fn line_len(self) -> usize
        ensures value { result ≡ length (line_of self) }
        ensures bound { result ≤ 11 }
    {
        let part = match self.operand() {
            None => 0,
            Some(operand) => 1 + operand.text_len(),
        };
        self.mnemonic().len() + part + 1
    }

    /// The line, its end included.
    pub(crate) fn line(self) -> Line
        ensures { result.items ≡ line_of self }
    {
        let mut line = Line::new();
        add(&mut line, self.mnemonic());
        if let Some(operand) = self.operand() {
            line.push(b' ');
            operand.add_to(&mut line);
        }
        line.push(b'\n');
        line
    }
}

impl Operand {
    /// How many bytes the operand's text has.
    fn text_len(self) -> usize
        ensures value { result ≡ length (operand_text self) }
        ensures bound { result ≤ 5 }
    {
        match self {
            Operand::True => 4,
            Operand::At(point) => 2 + digits_in(point.number),
        }
    }

    /// Adds the operand's text to a line.
    #[tactic(auto, using(crate::proofs::Texts::three_digits))]
    fn add_to(self, line: &mut Line)
        requires { array_vec_len line.old ≤ 5 }
        ensures value { line.new.items ≡ line.old.items ++ operand_text self }
        ensures bound { array_vec_len line.new ≤ 10 }
    {
        match self {
            Operand::True => add(line, b"TRUE"),
            Operand::At(point) => {
                line.push(b'%');
                line.push(area_letter(point.area));
                add_number(line, point.number as usize);
            }
        }
    }
}

// A function and no `From`: neither type is of this crate.
fn area_letter(area: Area) -> u8
    ensures { result ≡ letter area }
{
    match area {
        Area::Input => b'I',
        Area::Output => b'Q',
        Area::Marker => b'M',
    }
}
