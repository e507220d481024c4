//! Making a program, instruction by instruction.
ghost use Rattle.std.specs.Prelude.{◌≡◌, ◌<◌, ◌≤◌, [], ◌∷◌, ◌++◌, Some, Ok};
ghost use Rattle.instructions.specs.Words.{instruction_of};
ghost use Rattle.programs.specs.Rules.{start, onward, concluded};
ghost use Rattle.programs.specs.Places.{place_of};
ghost use Rattle.programs.specs.Drafts.{drafted, standing, Added};
ghost use Rattle.programs.specs.Programs.{Taken};

use super::Draft;
use crate::checker::Checker;
use crate::fault::RuleFault;
use crate::program::Program;
use crate::starts::Starts;
use instructions::{Instruction, Store};

impl Draft {
    /// A draft with no words.
    pub fn new() -> Draft
        ensures words { drafted result ≡ [] }
        ensures place { standing result ≡ start }
    {
        Draft {
            checker: Checker::new(),
            words: Store::new(),
            starts: Starts::new(),
        }
    }

    /// Adds a word if it stands for an instruction and the rules allow that here; a refusal alters nothing.
    pub fn add(&mut self, word: u16) -> Result<(), RuleFault>
        ensures { Added self.old word result self.new }
    {
        match Instruction::try_from(word) {
            Ok(instruction) => self.add_as(instruction, word),
            Err(_) => Err(RuleFault::NotAllowed),
        }
    }

    /// The program of the words, if they may end here.
    pub fn finish(&self) -> Result<Program, RuleFault>
        ensures { Taken (drafted self.now) (concluded (standing self.now)) result }
    {
        self.checker.finish()?;
        Ok(Program {
            words: self.words,
            starts: self.starts,
        })
    }

    fn add_as(&mut self, instruction: Instruction, word: u16) -> Result<(), RuleFault>
        requires { instruction_of word ≡ Some instruction }
        ensures { Added self.old word result self.new }
    {
        let mut checker = self.checker;
        checker.step(instruction)?;
        self.enter(checker, word);
        Ok(())
    }

    /// Keeps a word that leads the checker on.
    fn enter(&mut self, checker: Checker, word: u16)
        requires { onward (Ok (standing self.old)) word ≡ Ok (place_of checker) }
        ensures place { standing self.new ≡ place_of checker }
        ensures words { drafted self.new ≡ drafted self.old ++ word ∷ [] }
    {
        let begins = checker.rungs > self.checker.rungs;
        self.starts.note(self.checker.words as u16, begins);
        let _ = self.words.append(&[word]);
        self.checker = checker;
    }
}
