//! Why a rung is refused.
ghost use Rattle.std.specs.Prelude.{◌≡◌};
ghost use Rattle.translation.specs.Faults.{rung_number};

/// What is wrong with a rung, in the order of judging, by the number under which it is refused.
#[derive(Clone, Copy)]
pub enum RungFault {
    NotSeriesParallel = 9,
    /// A sixteenth bracket would be open.
    TooDeep = 10,
    /// The program would have more than 4,096 words.
    TooLong = 11,
}

impl RungFault {
    /// The number under which the rung is refused.
    pub fn number(self) -> u8
        ensures { result ≡ rung_number self }
    {
        self as u8
    }
}
