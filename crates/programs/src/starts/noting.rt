//! Noting where rungs start.
ghost use Rattle.std.specs.Prelude.{◌≡◌, ◌+◌, ◌<◌, true, [], ◌∷◌, ◌++◌, if◌then◌else◌};
ghost use Rattle.programs.specs.Starts.{noted};

use super::Starts;

impl Starts {
    /// No rung has started.
    pub(crate) fn new() -> Starts
        ensures value { noted result ≡ [] }
        ensures len { result.len ≡ 0 }
    {
        Starts {
            places: [0; 128],
            len: 0,
        }
    }

    /// The places that are noted.
    pub(crate) fn places(&self) -> &[u16]
        ensures { result.now ≡ noted self.now }
    {
        &self.places[0..self.len]
    }

    /// Notes a place, if a rung begins there.
    // A flag beside the place: what a word adds is one list, of one place or none, and its law is said once.
    pub(crate) fn note(&mut self, place: u16, begins: bool)
        requires { begins ≡ true → self.old.len < 128 }
        ensures value { noted self.new ≡ noted self.old ++ (if begins then place ∷ [] else []) }
        ensures len { self.new.len ≡ (if begins then self.old.len + 1 else self.old.len) }
    {
        if begins {
            self.places[self.len] = place;
            self.len += 1;
        }
    }
}
