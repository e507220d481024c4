//! A program while it is made.
ghost use Rattle.std.specs.Prelude.{◌≡◌, true};
ghost use Rattle.instructions.specs.Stores.{stored};
ghost use Rattle.programs.specs.Rules.{lead_to};
ghost use Rattle.programs.specs.Places.{place_of};
ghost use Rattle.programs.specs.Counts.{starts_of};
ghost use Rattle.programs.specs.Starts.{noted};

use super::checker::Checker;
use super::starts::Starts;
use instructions::Store;

/// Words that keep the rules so far, and where their rungs start.
#[derive(Clone, Copy)]
pub struct Draft {
    checker: Checker,
    words: Store,
    starts: Starts,
    ghost leads: { lead_to (stored words) (place_of checker) ≡ true },
    ghost started: { noted starts ≡ starts_of (stored words) },
    ghost counted: { starts.len ≡ checker.rungs },
}

mod drafting;
