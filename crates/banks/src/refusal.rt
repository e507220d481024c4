//! What arranging a layer is refused for.
ghost use Rattle.std.specs.Prelude.{◌≡◌};
ghost use Rattle.banks.specs.Refusals.{refusal_number};

/// A layer that refuses a call is left as it was.
#[derive(Clone, Copy, PartialEq, Eq, Debug)]
pub enum Refusal {
    /// There is no input of that number: inputs go from 0 to 255.
    NoSuchInput = 15,
}

impl Refusal {
    // One line in each of six enums: each answers by the definition of its own cases, and a trait would need as many impls.
    pub fn number(self) -> u8
        ensures { result ≡ refusal_number self }
    {
        self as u8
    }
}
