//! The theorems about scans, each the contract of a function that does nothing.
ghost use Rattle.scanning.specs.Cards.{CardsListed, OneMeaning, CardsAgree};
ghost use Rattle.scanning.specs.RuledOut.{FedAlike, SetKeepsOn};
ghost use Rattle.scanning.specs.Theorems.{ScansAgree, OneOutcome, OnByAPath, PlainIsTwo, UnnamedStay};

/// A scan of the listings of circuits leaves what the scan by paths leaves, and that leaves nothing else.
pub fn scans_agree<S>()
    ensures agree { ScansAgree S }
    ensures one { OneOutcome S }
{}

/// A card that is not refused means rungs, and no others; its words are their listings, and a scan of them leaves
/// what the scan by paths of those rungs leaves.
pub fn cards_agree<S>()
    ensures listed { CardsListed }
    ensures meaning { OneMeaning }
    ensures agree { CardsAgree S }
{}

/// In a kind of two signals whose parallel joining of on and on is on, as the plain kind is, coils receive on
/// exactly if some path has every link on.
pub fn coils_receive<S>()
    ensures path { OnByAPath S }
    ensures plain { PlainIsTwo }
{}

/// Every point that no coil of the words names holds what it held.
pub fn unnamed_stay<S>()
    ensures { UnnamedStay S }
{}

/// No coil alters a contact of its own rung before the next coil is fed, and no plain `S` turns a point off.
pub fn ruled_out<S>()
    ensures fed { FedAlike S }
    ensures set { SetKeepsOn }
{}
