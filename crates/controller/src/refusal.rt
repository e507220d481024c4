//! Why a setting, a reading or a scan is refused.
ghost use Rattle.std.specs.Prelude.{◌≡◌};
ghost use Rattle.controller.specs.declared.refusal.Refusal.TheVariants.{SmallBank, FewSignals};
ghost use Rattle.controller.specs.Refusals.{refusal_number};

use scanning::ScanFault;

/// A call that is refused leaves everything as it was.
#[derive(Clone, Copy)]
pub enum Refusal {
    /// The bank counts under 768 points.
    SmallBank = 1,
    /// Under 15 working signals are lent.
    FewSignals = 2,
    /// There is no such input or point.
    NoSuchPoint = 15,
}

/// The refusal that installs, settings, readings and scans share: the bank counts under 768 points.
#[derive(Clone, Copy)]
pub(crate) struct SmallBank;

impl Refusal {
    /// The number of this refusal.
    pub fn number(self) -> u8
        ensures { result ≡ refusal_number self }
    {
        self as u8
    }
}

impl From<SmallBank> for Refusal {
    ghost from_gives = { λ _ r. r ≡ SmallBank };

    fn from(_fault: SmallBank) -> Refusal {
        Refusal::SmallBank
    }
}

impl From<ScanFault> for Refusal {
    ghost from_gives = { λ _ r. r ≡ FewSignals };

    fn from(_fault: ScanFault) -> Refusal {
        Refusal::FewSignals
    }
}
