//! Reading and writing agree.
ghost use Rattle.listings.specs.Answers.{ListingLaws};

/// What is written is read back to the same words, and what is read is written back to the same bytes, as a contract.
pub fn listings_agree()
    ensures { ListingLaws }
{}
