//! Why words may not stand.
ghost use Rattle.std.specs.Prelude.{◌≡◌};
ghost use Rattle.programs.specs.Faults.{rule_number};

/// The rule that words break.
#[derive(Clone, Copy)]
pub enum RuleFault {
    /// The instruction is not allowed in its state.
    NotAllowed = 13,
    /// It would open a sixteenth bracket.
    TooDeep = 10,
    /// It would start rung 129.
    TooManyRungs = 5,
    /// It would be word 4,097.
    TooLong = 11,
    /// The words end opened or joining.
    Unfinished = 14,
}

impl RuleFault {
    /// The number of this refusal.
    pub fn number(self) -> u8
        ensures { result ≡ rule_number self }
    {
        self as u8
    }
}
