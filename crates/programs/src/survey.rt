//! How many rungs words have, and how deep their brackets go.
ghost use Rattle.std.specs.Prelude.{◌≡◌, ◌+◌, ◌^◌, ◌<◌};
ghost use Rattle.instructions.specs.Words.{instruction_of};
ghost use Rattle.programs.specs.Counts.{starts_if, counts as counts_of};
ghost use Rattle.programs.specs.Surveys.{seen_at, seen_after};

use instructions::{Instruction, brackets_after};

/// What has been seen of a row of words.
#[derive(Clone, Copy, Default)]
struct Survey {
    /// Brackets that are open.
    brackets: usize,
    rungs: usize,
    /// The greatest number of brackets open at once in a rung, and the first rung that had it.
    depth: usize,
    first: usize,
}

/// Rungs, words, greatest depth, and the first rung with that depth; 0 if there are no rungs.
pub fn counts(words: &[u16]) -> (usize, usize, usize, usize)
    ensures { result ≡ counts_of words.now }
{
    // Kept as a loop: that no count overflows is known only from how many words have come.
    let mut seen = Survey::default();
    for word in words {
        seen = seen.after(*word);
    }
    (seen.rungs, words.len(), seen.depth, seen.first)
}

impl Survey {
    /// What has been seen after one word more.
    fn after(self, word: u16) -> Survey
        requires brackets { self.brackets + 1 < 2 ^ 64 }
        requires rungs { self.rungs + 1 < 2 ^ 64 }
        ensures { result ≡ seen_after self (instruction_of word) }
    {
        let instruction = Instruction::try_from(word).ok();
        self.at(
            brackets_after(self.brackets, instruction),
            starts_rung(self.brackets, instruction),
        )
    }

    /// A bracket before the first rung is no bracket of a rung.
    fn at(self, brackets: usize, starts: bool) -> Survey
        requires { self.rungs + 1 < 2 ^ 64 }
        ensures { result ≡ seen_at self brackets starts }
    {
        let rungs = if starts { self.rungs + 1 } else { self.rungs };
        if self.rungs == 0 || brackets <= self.depth {
            return Survey {
                brackets,
                rungs,
                ..self
            };
        }
        Survey {
            brackets,
            rungs,
            depth: brackets,
            first: self.rungs - 1,
        }
    }
}

/// A rung starts at each load with no bracket open.
fn starts_rung(brackets: usize, instruction: Option<Instruction>) -> bool
    ensures { result ≡ starts_if brackets instruction }
{
    brackets == 0
        && matches!(
            instruction,
            Some(Instruction::Load(_) | Instruction::LoadNot(_))
        )
}
