//! A rung as it is drawn: joints, the links between them, and the coils.
ghost use Rattle.std.specs.Prelude.{◌≡◌, ◌≤◌, true, length};
ghost use Rattle.rows.specs.Rows.{parts_of};
ghost use Rattle.wiring.specs.Drawn.{linked, driven};

use points::Point;
use rows::Row;

/// What a link passes on.
#[derive(Clone, Copy, Default)]
pub enum Contact {
    /// A bare wire: always on.
    #[default]
    Wire,
    /// Open at rest: passes its point's signal.
    Open(Point),
    /// Closed at rest: passes the inverse of its point's signal.
    Closed(Point),
}

/// A link from one joint to another.
#[derive(Clone, Copy, Default)]
pub struct Link {
    pub from: u8,
    pub to: u8,
    pub contact: Contact,
}

/// What a coil does to its point with the signal that it receives.
#[derive(Clone, Copy, Default)]
pub enum Action {
    #[default]
    Store,
    StoreNot,
    Set,
    Reset,
}

/// A coil on an output or a marker.
#[derive(Clone, Copy, Default)]
pub struct Coil {
    pub action: Action,
    pub point: Point,
}

/// A rung within the limits: 2 to 32 joints, 1 to 64 links, 1 to 8 coils.
///
/// Joint 0 is the left rail, the highest joint feeds all coils.
#[derive(Clone, Copy)]
pub struct Rung {
    pub joints: u8,
    pub links: Row<Link, 64>,
    pub coils: Row<Coil, 8>,
    ghost two: { 2 ≤ joints },
    ghost most: { joints ≤ 32 },
    ghost some_link: { 1 ≤ length (parts_of links) },
    ghost most_links: { length (parts_of links) ≤ 64 },
    ghost some_coil: { 1 ≤ length (parts_of coils) },
    ghost most_coils: { length (parts_of coils) ≤ 8 },
    ghost linked: { linked joints (parts_of links) ≡ true },
    ghost driven: { driven (parts_of coils) ≡ true },
}
