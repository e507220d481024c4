//! The plain kind: off and on, joined as AND and OR.
ghost use Rattle.signals.specs.Kinds.{plain};
ghost use Rattle.std.proofs.Common.{rules};

use crate::signal::Signal;

/// In rising order: AND takes the lower signal, OR the higher.
#[derive(Clone, Copy, PartialEq, Eq, PartialOrd, Ord, Debug)]
pub enum Plain {
    Off,
    On,
}

impl Signal for Plain {
    ghost kind = { plain };

    ghost laws = { Prim.search rules };

    fn off() -> Self {
        Self::Off
    }

    fn on() -> Self {
        Self::On
    }

    fn series(self, other: Self) -> Self {
        self.min(other)
    }

    fn parallel(self, other: Self) -> Self {
        self.max(other)
    }

    fn inverse(self) -> Self {
        match self {
            Plain::Off => Plain::On,
            Plain::On => Plain::Off,
        }
    }

    fn is_on(self) -> bool {
        self == Plain::On
    }
}
