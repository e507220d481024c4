//! Why a card is refused.
ghost use Rattle.std.specs.Prelude.{◌≡◌};
ghost use Rattle.cards.specs.Faults.{cause_number};
ghost use Rattle.cards.specs.Rungs.{fault_at};

/// What is wrong with the bits of a card, and the number under which the card is refused.
#[derive(Clone, Copy, PartialEq, Eq, Debug)]
pub enum CardCause {
    /// The card ends before a field does.
    EndsEarly = 3,
    /// The padding is not zero, or bytes follow it.
    Padding = 4,
    /// More than 128 rungs.
    TooManyRungs = 5,
    /// The count of joints, links or coils is outside its limits.
    Counts = 6,
    /// A link's ends or contact.
    LinkField = 7,
    /// A coil's area.
    CoilField = 8,
}

impl CardCause {
    /// The number under which the card is refused.
    pub fn number(self) -> u8
        ensures { result ≡ cause_number self }
    {
        self as u8
    }

    /// The fault of this cause at a bit.
    pub(crate) fn at(self, bit: u32) -> CardFault
        ensures { result ≡ fault_at self bit }
    {
        CardFault { cause: self, bit }
    }
}

/// What is wrong, and the bit at which it stands.
#[derive(Clone, Copy, PartialEq, Eq, Debug)]
pub struct CardFault {
    pub cause: CardCause,
    pub bit: u32,
}
