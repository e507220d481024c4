//! Arranging one layer.
ghost use Rattle.std.specs.Prelude.{◌≡◌};
ghost use Rattle.piles.specs.Arranged.{mark_told, marking, exchange_told, Exchanging};
ghost use Rattle.piles.specs.Layered.{bottom};

use crate::fault::ArrangeFault;
use crate::layer::Layer;
use banks::Bank;

impl<B: Bank> Layer<B> {
    /// The bank below.
    pub fn below(&self) -> &B
        ensures { result.now ≡ bottom self.now }
    {
        match self {
            Layer::Bare(bank) => bank,
            Layer::Marked(strip) => strip.below(),
            Layer::Patched(board) => board.below(),
        }
    }

    /// Sets or clears the mark of an input, if this is a strip.
    pub fn mark(&mut self, input: usize, inverted: bool) -> Result<(), ArrangeFault>
        ensures told { result ≡ mark_told self.old input }
        ensures after { self.new ≡ marking self.old input inverted }
    {
        match self {
            Layer::Marked(strip) => strip.mark(input, inverted).map_err(ArrangeFault::Refused),
            _ => Err(ArrangeFault::NoSuchLayer),
        }
    }

    /// Swaps the entries of two inputs, if this is a patch board.
    // Kept beside `mark`: each asks the one layer that can answer, so what they share is the last line.
    pub fn exchange(&mut self, a: usize, b: usize) -> Result<(), ArrangeFault>
        ensures told { result ≡ exchange_told self.old a b }
        ensures after { Exchanging self.old a b self.new }
    {
        match self {
            Layer::Patched(board) => board.exchange(a, b).map_err(ArrangeFault::Refused),
            _ => Err(ArrangeFault::NoSuchLayer),
        }
    }
}
