//! How brackets join.
use signals::Signal;

/// How the signal that a bracket set aside is joined with the result inside it.
#[derive(Clone, Copy, Default)]
pub enum Joining {
    #[default]
    Series,
    Parallel,
}

impl Joining {
    ghost use Rattle.std.specs.Prelude.{◌≡◌};
    ghost use Rattle.scanning.specs.Machine.{joined};

    /// Two signals joined, in this order.
    pub(crate) fn join<S: Signal>(self, first: S, second: S) -> S
        ensures { result ≡ joined S.kind self first second }
    {
        match self {
            Joining::Series => first.series(second),
            Joining::Parallel => first.parallel(second),
        }
    }
}
