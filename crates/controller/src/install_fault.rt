//! Why an install is refused.
ghost use Rattle.std.specs.Prelude.{◌≡◌};
ghost use Rattle.controller.specs.declared.install_fault.InstallFault.TheVariants.{SmallBank, Card, Listing};
ghost use Rattle.instructions.specs.Reports.{refusal_line, Written};
ghost use Rattle.controller.specs.Refusals.{install_number, install_rung, install_place};

use super::refusal::SmallBank;
use instructions::{ShortBuffer, write_refusal};
use listings::ListingFault;
use translation::LadderFault;

/// Which install was refused, with the fault below it whole.
#[derive(Clone, Copy)]
pub enum InstallFault {
    /// The bank counts under 768 points.
    SmallBank,
    /// The card is refused.
    Card(LadderFault),
    /// The listing is refused.
    Listing(ListingFault),
}

// Kept as three matches: one match to a triple, taken apart three times, is no plainer.
impl InstallFault {
    /// The number of this refusal.
    pub fn number(self) -> u8
        ensures { result ≡ install_number self }
    {
        match self {
            InstallFault::SmallBank => 1,
            InstallFault::Card(fault) => fault.number(),
            InstallFault::Listing(fault) => fault.number(),
        }
    }

    /// The rung of a card or the line of a listing, counted from 0; 0 for a small bank.
    pub fn rung(self) -> usize
        ensures { result ≡ install_rung self }
    {
        match self {
            InstallFault::SmallBank => 0,
            InstallFault::Card(fault) => fault.rung() as usize,
            InstallFault::Listing(fault) => fault.line(),
        }
    }

    /// The bit of a card or the byte of a listing, counted from 0; 0 for a small bank.
    pub fn place(self) -> usize
        ensures { result ≡ install_place self }
    {
        match self {
            InstallFault::SmallBank => 0,
            InstallFault::Card(fault) => fault.bit() as usize,
            InstallFault::Listing(fault) => fault.byte(),
        }
    }

    /// Writes the refusal line: `NO`, number, rung (or line) and bit (or byte). Its length is answered, later bytes stay.
    pub fn write_line(self, buffer: &mut [u8]) -> Result<usize, ShortBuffer>
        ensures { Written (refusal_line (install_number self) (install_rung self) (install_place self)) buffer.old result buffer.new }
    {
        write_refusal(self.number(), self.rung(), self.place(), buffer)
    }
}

impl From<SmallBank> for InstallFault {
    ghost from_gives = { λ _ r. r ≡ SmallBank };

    fn from(_fault: SmallBank) -> InstallFault {
        InstallFault::SmallBank
    }
}

impl From<LadderFault> for InstallFault {
    ghost from_gives = { λ e r. r ≡ Card e };

    fn from(fault: LadderFault) -> InstallFault {
        InstallFault::Card(fault)
    }
}

impl From<ListingFault> for InstallFault {
    ghost from_gives = { λ e r. r ≡ Listing e };

    fn from(fault: ListingFault) -> InstallFault {
        InstallFault::Listing(fault)
    }
}
