//! Piles of at most two layers.
ghost use Rattle.std.specs.Prelude.{◌≡◌};
ghost use Rattle.std.specs.Fn.{FnOnceReturnsAtMut};
ghost use Rattle.piles.specs.Arranged.{mark_told, marking, exchange_told};
ghost use Rattle.piles.specs.Layered.{bottom};
ghost use Rattle.piles.specs.Piles.{bank_of, stripped, Boarded, Laid, with_strip, WithBoard, with_lower, ArrangedBelow, ExchangedBelow};

use crate::fault::ArrangeFault;
use crate::layer::Layer;
use banks::{Bank, PatchBoard, Strip};

/// A bank under at most two layers, of any kind and in any order.
pub type Pile<B> = Layer<Layer<B>>;

/// A strip without marks on a bank.
fn stripped<B: Bank>(bank: B) -> Layer<B>
    ensures { result ≡ stripped bank }
{
    Layer::Marked(Strip::over(bank))
}

/// A patch board with each input at its own number on a bank.
fn boarded<B: Bank>(bank: B) -> Layer<B>
    ensures { Boarded bank result }
{
    Layer::Patched(PatchBoard::over(bank))
}

// Kept as a pile in both answers: it owns the bank, so a refusal hands it back.
/// Lays a layer in the lowest place that is free, or gives a pile back that has a layer on the top.
fn laid<B: Bank, F: FnOnce(B) -> Layer<B> + Drop, G: FnOnce(Layer<B>) -> Pile<B> + Drop>(
    pile: Pile<B>,
    on_bank: F,
    on_layer: G,
) -> Result<Pile<B>, Pile<B>>
    requires on_bank { F.IsAlwaysCallable on_bank }
    requires on_layer { G.IsAlwaysCallable on_layer }
    ensures { Laid (F.post on_bank) (G.post on_layer) pile result }
{
    match pile {
        Layer::Bare(Layer::Bare(bottom)) => Ok(Layer::Bare(on_bank(bottom))),
        Layer::Bare(Layer::Marked(strip)) => Ok(on_layer(Layer::Marked(strip))),
        Layer::Bare(Layer::Patched(board)) => Ok(on_layer(Layer::Patched(board))),
        Layer::Marked(strip) => Err(Layer::Marked(strip)),
        Layer::Patched(board) => Err(Layer::Patched(board)),
    }
}

impl<B: Bank> Layer<Layer<B>> {
    /// A pile of no layers.
    pub fn over(bank: B) -> Pile<B>
        ensures { result ≡ Layer.Bare (Layer.Bare bank) }
    {
        Layer::Bare(Layer::Bare(bank))
    }

    /// The bank at the bottom.
    pub fn bank(&self) -> &B
        ensures { result.now ≡ bank_of self.now }
    {
        self.below().below()
    }

    /// Lays a strip on the top, or gives a pile back that has a layer there.
    pub fn lay_strip(self) -> Result<Pile<B>, Pile<B>>
        ensures { result ≡ with_strip self }
    {
        laid(self, stripped, stripped)
    }

    /// Lays a patch board on the top, or gives a pile back that has a layer there.
    pub fn lay_board(self) -> Result<Pile<B>, Pile<B>>
        ensures { WithBoard self result }
    {
        laid(self, boarded, boarded)
    }

    /// Arranges the lower layer.
    fn arrange_lower<F: FnOnce(&mut Layer<B>) -> Result<(), ArrangeFault>>(
        &mut self,
        arrange: F,
    ) -> Result<(), ArrangeFault>
        requires { F.IsAlwaysCallable arrange }
        ensures { ArrangedBelow (FnOnceReturnsAtMut F.FnOnce arrange) self.old result self.new }
    {
        match self {
            Layer::Bare(lower) => arrange(lower),
            Layer::Marked(strip) => arrange(strip.below_mut()),
            Layer::Patched(board) => arrange(board.below_mut()),
        }
    }

    /// Sets or clears the mark of an input on the lower layer.
    pub fn mark_lower(&mut self, input: usize, inverted: bool) -> Result<(), ArrangeFault>
        ensures told { result ≡ mark_told (bottom self.old) input }
        ensures after { self.new ≡ with_lower self.old (marking (bottom self.old) input inverted) }
    {
        self.arrange_lower(|lower| lower.mark(input, inverted))
    }

    /// Swaps the entries of two inputs on the lower layer.
    pub fn exchange_lower(&mut self, a: usize, b: usize) -> Result<(), ArrangeFault>
        ensures told { result ≡ exchange_told (bottom self.old) a b }
        ensures after { ExchangedBelow self.old a b self.new }
    {
        self.arrange_lower(|lower| lower.exchange(a, b))
    }
}
