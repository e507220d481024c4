//! The laws of the card judge, as contracts.
ghost use Rattle.translation.specs.Acceptance.{AcceptedExactly, OneVerdict};

/// A card is accepted exactly if it is the encoding of rungs within the limits.
pub fn acceptance_is_exact()
    ensures { AcceptedExactly }
{}

/// A card has one verdict.
pub fn verdict_is_one()
    ensures { OneVerdict }
{}
