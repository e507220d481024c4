//! A layer that is chosen while a program runs.
ghost use Rattle.std.specs.Prelude.{ℕ, Bool, List};
ghost use Rattle.piles.specs.Layered.{layer_shows, layer_short, layer_rest};

use banks::{Bank, PatchBoard, Strip};

/// A bank as it is, or under a strip or a patch board.
// An enum and no `dyn Bank`: there is no heap to box a layer, and what its points mean would not be known.
#[derive(Drop)]
pub enum Layer<B> {
    Bare(B),
    Marked(Strip<B>),
    Patched(PatchBoard<B>),
}

impl<B: Bank> Bank for Layer<B> {
    type Kind = B::Kind;

    ghost points = { λ b. layer_shows B.Kind.Signal.kind B.Bank.points b };

    ghost short = { λ b. layer_short B.Kind.Signal.kind B.Bank.points B.Bank.short b };

    ghost Rest = { List Bool × List ℕ × B.Bank.Rest };

    ghost rest = { λ b. layer_rest B.Bank.rest b };

    fn count(&self) -> usize {
        match self {
            Layer::Bare(bank) => bank.count(),
            Layer::Marked(strip) => strip.count(),
            Layer::Patched(board) => board.count(),
        }
    }

    fn read(&self, index: usize) -> Option<B::Kind> {
        match self {
            Layer::Bare(bank) => bank.read(index),
            Layer::Marked(strip) => strip.read(index),
            Layer::Patched(board) => board.read(index),
        }
    }

    fn write(&mut self, index: usize, signal: B::Kind) -> bool {
        match self {
            Layer::Bare(bank) => bank.write(index, signal),
            Layer::Marked(strip) => strip.write(index, signal),
            Layer::Patched(board) => board.write(index, signal),
        }
    }
}
