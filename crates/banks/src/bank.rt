//! What every bank offers.
ghost use Rattle.std.specs.Prelude.{◌≡◌, ◌≤◌, List, length, nat_lt, slice_set};
ghost use Rattle.std.specs.List.{slice_get};

use signals::Signal;

/// A bank means a list of at most 768 signals.
pub trait Bank {
    type Kind: Signal;

    /// The signals, by index.
    ghost points: { Self → List Self.Kind };

    /// Of every bank, that it means no more than 768. A law could not be kept by a bank over lent memory.
    ghost short: { (b : Self) → length (points b) ≤ 768 };

    /// All of the bank but its points: which lent memory it stands on, what lies there beyond the points, marks and
    /// tables. A write keeps it, so the lender learns what is left there.
    ghost Rest: { Type 0 };

    // The rest stands in the contract of each function that is lent a bank: no type says what is left behind a `&mut B`.
    ghost rest: { Self → Rest };

    /// How many points there are.
    fn count(&self) -> usize
        ensures { result ≡ length (points self.now) };

    /// The signal at an index, or nothing at an index not below the count.
    fn read(&self, index: usize) -> Option<Self::Kind>
        ensures { result ≡ slice_get (points self.now) index };

    /// Replaces the signal at an index. At an index not below the count nothing is altered, and the answer is no.
    fn write(&mut self, index: usize, signal: Self::Kind) -> bool
        ensures told { result ≡ nat_lt index (length (points self.old)) }
        ensures after { points self.new ≡ slice_set (points self.old) index signal }
        ensures untouched { rest self.new ≡ rest self.old };
}
