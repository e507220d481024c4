//! Where the rungs of a program start.
ghost use Rattle.std.specs.Prelude.{◌≤◌};

/// Room for the places at which 128 rungs start.
// A plain array and a length beside `Store`, whose size is fixed by rule: a program is copied as a value, as no vector is.
#[derive(Clone, Copy)]
pub(crate) struct Starts {
    places: [u16; 128],
    len: usize,
    ghost few: { len ≤ 128 },
}

mod noting;
