//! Programs that may stand.
ghost use Rattle.std.specs.Prelude.{◌≡◌, true};
ghost use Rattle.instructions.specs.Stores.{stored};
ghost use Rattle.programs.specs.Rules.{keeps};
ghost use Rattle.programs.specs.Counts.{starts_of};
ghost use Rattle.programs.specs.Starts.{noted};

use super::starts::Starts;
use instructions::Store;

/// Words that keep the rules, and where their rungs start.
#[derive(Clone, Copy)]
pub struct Program {
    pub(crate) words: Store,
    pub(crate) starts: Starts,
    ghost ok: { keeps (stored words) ≡ true },
    ghost started: { noted starts ≡ starts_of (stored words) },
}

mod holding;
mod taking;
