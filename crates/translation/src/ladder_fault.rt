//! Why a card is refused: the card reader's fault with its rung, or a rung's fault with its place.
ghost use Rattle.std.specs.Prelude.{◌≡◌};
ghost use Rattle.translation.specs.declared.ladder_fault.LadderFault.TheVariants.{Card, Rung};
ghost use Rattle.instructions.specs.Reports.{refusal_line, Written};
ghost use Rattle.translation.specs.Faults.{ladder_number, ladder_rung, ladder_bit};

use super::rung_fault::RungFault;
use cards::CardFault;
use instructions::{ShortBuffer, write_refusal};

/// The card reader's fault, and the rung in which it was met.
#[derive(Clone, Copy)]
pub struct InRung {
    pub fault: CardFault,
    pub rung: u8,
}

/// A rung's fault, and the rung with the bit at which it starts.
#[derive(Clone, Copy)]
pub struct AtRung {
    pub fault: RungFault,
    pub rung: u8,
    pub bit: u32,
}

/// Why a card is refused.
// No trait over this and the faults of listings and installs: each names its place by its own word, bit, byte or place.
#[derive(Clone, Copy)]
pub enum LadderFault {
    Card(InRung),
    Rung(AtRung),
}

impl LadderFault {
    /// The number under which the card is refused.
    pub fn number(self) -> u8
        ensures { result ≡ ladder_number self }
    {
        match self {
            LadderFault::Card(met) => met.fault.cause.number(),
            LadderFault::Rung(met) => met.fault.number(),
        }
    }

    /// The rung in which the fault was met; 0 for the head, the count of rungs for what follows the last.
    pub fn rung(self) -> u8
        ensures { result ≡ ladder_rung self }
    {
        match self {
            LadderFault::Card(met) => met.rung,
            LadderFault::Rung(met) => met.rung,
        }
    }

    /// The bit at which the fault stands.
    pub fn bit(self) -> u32
        ensures { result ≡ ladder_bit self }
    {
        match self {
            LadderFault::Card(met) => met.fault.bit,
            LadderFault::Rung(met) => met.bit,
        }
    }

    /// Writes the refusal line: `NO`, number, rung and bit.
    pub fn write_line(self, buffer: &mut [u8]) -> Result<usize, ShortBuffer>
        ensures { Written (refusal_line (ladder_number self) (ladder_rung self) (ladder_bit self)) buffer.old result buffer.new }
    {
        let rung = self.rung() as usize;
        let bit = self.bit() as usize;
        write_refusal(self.number(), rung, bit, buffer)
    }
}

impl From<InRung> for LadderFault {
    ghost from_gives = { λ e r. r ≡ Card e };

    fn from(met: InRung) -> LadderFault {
        LadderFault::Card(met)
    }
}

impl From<AtRung> for LadderFault {
    ghost from_gives = { λ e r. r ≡ Rung e };

    fn from(met: AtRung) -> LadderFault {
        LadderFault::Rung(met)
    }
}
