//! Why a pile is not arranged.
use banks::Refusal;

/// A pile that is not arranged is left as it was.
#[derive(Clone, Copy, PartialEq, Eq, Debug)]
pub enum ArrangeFault {
    /// The pile has no layer of that kind at that place.
    NoSuchLayer,
    /// The layer refuses.
    Refused(Refusal),
}
