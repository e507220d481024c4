//! Why a listing is refused, and where.
ghost use Rattle.std.specs.Prelude.{◌≡◌};
ghost use Rattle.instructions.specs.Reports.{refusal_line, Written};
ghost use Rattle.listings.specs.declared.fault.Cause.TheVariants.{Broken};
ghost use Rattle.listings.specs.Faults.{cause_number, fault_number, fault_byte, fault_line};

use instructions::{ShortBuffer, write_refusal};
use programs::RuleFault;

/// Why a line is refused.
#[derive(Clone, Copy)]
pub enum Cause {
    /// It is no line.
    NotALine,
    /// It is a line, and breaks a rule where it stands.
    Broken(RuleFault),
}

impl Cause {
    /// The number of this refusal.
    pub fn number(self) -> u8
        ensures { result ≡ cause_number self }
    {
        // Kept as a match: a broken rule has the number of the fault below.
        match self {
            Cause::NotALine => 12,
            Cause::Broken(fault) => fault.number(),
        }
    }
}

/// The rule that a line breaks is why it is refused.
impl From<RuleFault> for Cause {
    ghost from_gives = { λ rule cause. cause ≡ Broken rule };

    fn from(rule: RuleFault) -> Cause {
        Cause::Broken(rule)
    }
}

/// The refusal of a listing: the cause, the byte at which the line starts, and the line, counted from 0.
/// A listing that ends opened or joining is refused at its length, after its last line.
#[derive(Clone, Copy)]
pub struct ListingFault {
    pub cause: Cause,
    pub byte: usize,
    pub line: usize,
}

impl ListingFault {
    /// The number of this refusal.
    pub fn number(self) -> u8
        ensures { result ≡ fault_number self }
    {
        self.cause.number()
    }

    /// The byte at which the line starts.
    pub fn byte(self) -> usize
        ensures { result ≡ fault_byte self }
    {
        self.byte
    }

    /// The line, counted from 0.
    pub fn line(self) -> usize
        ensures { result ≡ fault_line self }
    {
        self.line
    }

    /// Writes the refusal line: `NO`, number, line and byte.
    pub fn write_line(self, buffer: &mut [u8]) -> Result<usize, ShortBuffer>
        ensures { Written (refusal_line (fault_number self) (fault_line self) (fault_byte self)) buffer.old result buffer.new }
    {
        write_refusal(self.number(), self.line(), self.byte(), buffer)
    }
}
