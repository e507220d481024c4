//! Why a scan is refused.
ghost use Rattle.std.specs.Prelude.{◌≡◌};
ghost use Rattle.scanning.specs.Refusals.{scan_number};

/// What a scan asks for and does not have.
#[derive(Clone, Copy)]
pub enum ScanFault {
    /// Fewer than 15 working signals are lent.
    FewSignals = 2,
}

impl ScanFault {
    /// The number under which the scan is refused.
    pub fn number(self) -> u8
        ensures { result ≡ scan_number self }
    {
        self as u8
    }
}
