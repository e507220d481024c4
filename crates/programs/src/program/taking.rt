//! How words become a program.
ghost use Rattle.programs.specs.Rules.{concluded, judged};
ghost use Rattle.programs.specs.Drafts.{drafted, standing};
ghost use Rattle.programs.specs.Programs.{Taken, Replaced};

use super::Program;
use crate::draft::Draft;
use crate::fault::RuleFault;

impl Program {
    /// The program of the words, if they keep the rules.
    pub fn of(words: &[u16]) -> Result<Program, RuleFault>
        ensures { Taken words.now (judged words.now) result }
    {
        let mut draft = Draft::new();
        for word in words {
            draft.add(*word)?;
        }
        draft.finish()
    }

    /// Takes over a draft whole, if it may end where it stands; a refusal alters nothing.
    pub fn take_over(&mut self, draft: &Draft) -> Result<(), RuleFault>
        ensures { Replaced self.old (drafted draft.now) (concluded (standing draft.now)) result self.new }
    {
        let program = draft.finish()?;
        *self = program;
        Ok(())
    }
}
