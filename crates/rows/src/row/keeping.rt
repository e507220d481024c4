//! Keeping parts in a row.
ghost use Rattle.std.specs.Prelude.{◌≡◌, [], length};
ghost use Rattle.rows.specs.Rows.{parts_of, Kept};

use super::{Full, Row};
use std::ops::DerefSlice;

impl<T: Copy + Default, const ROOM: usize> Row<T, ROOM> {
    /// A row with no parts.
    pub fn new() -> Self
        ensures { parts_of result ≡ [] }
    {
        Row {
            places: [T::default(); ROOM],
            len: 0,
        }
    }
}

impl<T, const ROOM: usize> Row<T, ROOM> {
    /// How many parts it has.
    pub fn len(&self) -> usize
        ensures { result ≡ length (parts_of self.now) }
    {
        self.places[..self.len].len()
    }
}

impl<T: Copy, const ROOM: usize> Row<T, ROOM> {
    /// Keeps one part more behind those that it has, or refuses and alters nothing.
    pub fn push(&mut self, part: T) -> Result<(), Full>
        ensures { Kept ROOM self.old part result self.new }
    {
        let at = self.len;
        if at == ROOM {
            return Err(Full);
        }
        self.places[at] = part;
        self.len = at + 1;
        Ok(())
    }
}

/// The parts that are kept, as a slice.
impl<T, const ROOM: usize> DerefSlice for Row<T, ROOM> {
    type Elem = T;

    ghost deref_gives = { λ row parts. parts ≡ parts_of row };

    fn deref(&self) -> &[T] {
        &self.places[..self.len]
    }
}
