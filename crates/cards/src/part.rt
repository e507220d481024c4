//! The parts of which a card has rows.
ghost use Rattle.std.specs.Prelude.{◌≡◌, ℕ, List, Result};
ghost use Rattle.cards.specs.declared.fault.CardFault.{CardFault};
ghost use Rattle.cards.specs.Reading.{Room, Ahead};

use super::bits::Bits;
use super::fault::CardFault;

/// A part of a rung of which the card has a row, one behind the other.
pub(crate) trait Part: Copy + Default {
    /// How many bits a part takes.
    ghost width: { ℕ };

    /// What bytes say of a part, in a rung of so many joints and from a bit on.
    ghost part_at: { List ℕ → ℕ → ℕ → Result Self CardFault };

    /// The part whose fields come next.
    fn read(bits: &mut Bits<'_>, joints: u8) -> Result<Self, CardFault>
        requires { Room bits.old width }
        ensures value { result ≡ part_at bits.old.bytes.now joints bits.old.at }
        ensures ahead { Ahead bits.old (λ _. width) result bits.new };
}
