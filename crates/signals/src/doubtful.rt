//! The doubtful kind, with a third signal for a broken cable.
ghost use Rattle.signals.specs.Kinds.{doubtful};
ghost use Rattle.std.proofs.Common.{rules};

use crate::signal::Signal;

/// In rising order: series joining takes the lower signal, parallel joining the higher.
#[derive(Clone, Copy, PartialEq, Eq, PartialOrd, Ord, Debug)]
pub enum Doubtful {
    Off,
    Unknown,
    On,
}

impl Signal for Doubtful {
    ghost kind = { doubtful };

    ghost laws = { Prim.search rules };

    fn off() -> Self {
        Self::Off
    }

    fn on() -> Self {
        Self::On
    }

    fn series(self, other: Self) -> Self {
        self.min(other)
    }

    fn parallel(self, other: Self) -> Self {
        self.max(other)
    }

    fn inverse(self) -> Self {
        match self {
            Doubtful::Off => Doubtful::On,
            Doubtful::Unknown => Doubtful::Unknown,
            Doubtful::On => Doubtful::Off,
        }
    }

    fn is_on(self) -> bool {
        self == Doubtful::On
    }
}
