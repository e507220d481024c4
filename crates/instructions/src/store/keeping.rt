//! Keeping words in a store.
ghost use Rattle.std.specs.Prelude.{◌≡◌, []};
ghost use Rattle.instructions.specs.Stores.{stored, Kept};

use super::{Full, Store};

impl Store {
    /// A store with no words.
    pub fn new() -> Store
        ensures { stored result ≡ [] }
    {
        Store {
            words: [0; 4096],
            len: 0,
        }
    }

    /// Lets go of all words.
    pub fn clear(&mut self)
        ensures { stored self.new ≡ [] }
    {
        self.len = 0;
    }

    /// The words that are kept.
    pub fn words(&self) -> &[u16]
        ensures { result.now ≡ stored self.now }
    {
        &self.words[0..self.len]
    }

    /// Keeps more words behind those that it has, or refuses and alters nothing.
    pub fn append(&mut self, words: &[u16]) -> Result<(), Full>
        ensures { Kept self.old words.now result self.new }
    {
        let start = self.len;
        if words.len() > 4096 - start {
            return Err(Full);
        }
        let end = start + words.len();
        self.words[start..end].copy_from_slice(words);
        self.len = end;
        Ok(())
    }
}
