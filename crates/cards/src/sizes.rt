//! The counts of a rung.

/// How many joints, links and coils a rung has.
#[derive(Clone, Copy)]
pub(crate) struct Sizes {
    pub(crate) joints: u8,
    pub(crate) links: u8,
    pub(crate) coils: u8,
}
