//! A kind of signal for tests: its series does not commute, and its parallel tells one branch from many.
ghost use Rattle.scan_tests.specs.Trials.{trial};
ghost use Rattle.scan_tests.specs.Tables.{trial_laws};

use signals::Signal;

/// `Left` and `Right` hold on to the first of a series of two; two branches of anything but off are `Many`.
#[derive(Clone, Copy, PartialEq)]
pub enum Trial {
    Off,
    On,
    Left,
    Right,
    Many,
}

impl Signal for Trial {
    ghost kind = { trial };

    ghost laws = { trial_laws };

    fn off() -> Trial {
        Trial::Off
    }

    fn on() -> Trial {
        Trial::On
    }

    fn series(self, other: Trial) -> Trial {
        match (self, other) {
            (Trial::Off, _) | (_, Trial::Off) => Trial::Off,
            (Trial::On, _) => other,
            (Trial::Many, _) | (_, Trial::Many) => Trial::Many,
            (_, _) => self,
        }
    }

    fn parallel(self, other: Trial) -> Trial {
        match (self, other) {
            (Trial::Off, _) => other,
            (_, Trial::Off) => self,
            (_, _) => Trial::Many,
        }
    }

    fn inverse(self) -> Trial {
        match self {
            Trial::Off => Trial::On,
            Trial::On => Trial::Off,
            Trial::Left => Trial::Right,
            Trial::Right => Trial::Left,
            Trial::Many => Trial::Many,
        }
    }

    fn is_on(self) -> bool {
        self == Trial::On
    }
}
