//! What every kind of signal offers.
ghost use Rattle.std.specs.Prelude.{◌≡◌, true};
ghost use Rattle.signals.specs.Kind.{Kind, Laws};

/// A kind of signal, with all the laws that may be assumed of one.
pub trait Signal: Copy {
    ghost kind: { Kind Self };

    fn off() -> Self
        ensures { result ≡ kind.off };

    fn on() -> Self
        ensures { result ≡ kind.on };

    fn series(self, other: Self) -> Self
        ensures { result ≡ kind.series self other };

    fn parallel(self, other: Self) -> Self
        ensures { result ≡ kind.parallel self other };

    fn inverse(self) -> Self
        ensures { result ≡ kind.inverse self };

    /// Yes exactly for on.
    fn is_on(self) -> bool
        ensures yes { result ≡ true → self ≡ kind.on }
        ensures only { self ≡ kind.on → result ≡ true };

    ghost laws: { Laws kind };
}
