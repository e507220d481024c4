//! What a row is.
ghost use Rattle.std.specs.Prelude.{◌≡◌, ◌≤◌, ⊤};

use std::alloc::AllocError;

/// At most `ROOM` parts, in their order.
// Not the kit's `ArrayVec`: rungs and tables hold rows and are copied as values, which an array vector is not.
pub struct Row<T, const ROOM: usize> {
    places: [T; ROOM],
    len: usize,
    ghost few: { len ≤ ROOM },
}

// By hand: with a ghost field `Clone` is not derived over a type parameter.
impl<T: Copy, const ROOM: usize> Clone for Row<T, ROOM> {
    ghost is_clone = { λ row copy. copy ≡ row };

    ghost is_infallible = { λ _. ⊤ };

    fn clone(&self) -> Result<Self, AllocError> {
        Ok(*self)
    }
}

impl<T: Copy, const ROOM: usize> Copy for Row<T, ROOM> {}

/// A part found no room: nothing was altered.
#[derive(Clone, Copy)]
pub struct Full;

mod keeping;
