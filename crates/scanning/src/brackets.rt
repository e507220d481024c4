//! The brackets that are open while words are scanned.
ghost use Rattle.std.specs.Prelude.{◌≤◌, length};

use super::joining::Joining;
use arrayvec::ArrayVec;

// Two rows side by side: the signals stand in the caller's slice, by the project's rule, which has no room for joinings.
/// How each open bracket will join, the outermost first. The signals that they set aside stand in working signals of
/// the caller's, at the same places.
#[derive(Drop)]
pub(crate) struct Brackets<'a, S> {
    aside: &'a mut [S],
    joinings: ArrayVec<Joining, 15>,
    ghost few: { length joinings.items ≤ 15 },
    ghost enough: { 15 ≤ length aside.now },
}

impl<'a, S: Copy> Brackets<'a, S> {
    ghost use Rattle.std.specs.Prelude.{◌≡◌, ◌<◌, ◌≤◌, [], ◌∷◌, length, MatchOption};
    ghost use Rattle.scanning.specs.Working.{pile};

    /// No open brackets, over working signals. What these hold afterwards is open.
    pub(crate) fn over(work: &'a mut [S]) -> Brackets<'a, S>
        requires { 15 ≤ length work.old }
        ensures { pile result ≡ [] }
    {
        Brackets {
            aside: work,
            joinings: ArrayVec::new(),
        }
    }

    /// Opens a bracket, which sets a signal aside.
    pub(crate) fn set_aside(&mut self, signal: S, joining: Joining)
        requires { length (pile self.old) < 15 }
        ensures { pile self.new ≡ (signal, joining) ∷ pile self.old }
    {
        self.aside[self.joinings.len()] = signal;
        self.joinings.push(joining);
    }

    /// Closes the bracket opened last, and answers what it set aside; nothing where none is open.
    pub(crate) fn take_back(&mut self) -> Option<(S, Joining)>
        ensures { MatchOption result ((pile self.old ≡ []) × (pile self.new ≡ [])) (λ top. pile self.old ≡ top ∷ pile self.new) }
    {
        let joining = self.joinings.pop()?;
        Some((self.aside[self.joinings.len()], joining))
    }
}
