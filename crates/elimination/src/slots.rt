//! The active edges between the joints that are left, each in the slot of its lowest link.
ghost use Rattle.std.specs.Prelude.{◌≡◌, map};
ghost use Rattle.elimination.specs.Slots.{near_of, far_of, touch, spared, far_ends, only_of, runs_straight, straight};

/// An edge: the joint that it comes from, the joint that it goes to, and the position of its wiring in the table.
#[derive(Clone, Copy)]
pub(crate) struct Active {
    pub from: u8,
    pub to: u8,
    pub at: u8,
}

/// For each link number the edge whose lowest link it is.
pub(crate) type Slots = [Option<Active>; 64];

/// A side of a joint: the edges that enter it, or those that leave it.
#[derive(Clone, Copy)]
pub(crate) enum Side {
    Entering,
    Leaving,
}

impl Active {
    /// The end of the edge at that side of a joint.
    fn near(self, side: Side) -> u8
        ensures { result ≡ near_of side self }
    {
        match side {
            Side::Entering => self.to,
            Side::Leaving => self.from,
        }
    }

    /// The other end.
    // Kept beside `near`: asking for the near end at the opposite side would be no plainer.
    fn far(self, side: Side) -> u8
        ensures { result ≡ far_of side self }
    {
        match side {
            Side::Entering => self.from,
            Side::Leaving => self.to,
        }
    }
}

/// The slot, if its edge touches the joint at that side.
pub(crate) fn touching(slot: Option<Active>, side: Side, joint: u8) -> Option<Active>
    ensures { result ≡ touch side joint slot }
{
    slot.filter(|edge| edge.near(side) == joint)
}

/// The slot, if its edge does not touch the joint.
fn spare(slot: Option<Active>, joint: u8) -> Option<Active>
    ensures { result ≡ spared joint slot }
{
    slot.filter(|edge| edge.from != joint && edge.to != joint)
}

/// Empties the slots of the edges that touch the joint.
pub(crate) fn clear(slots: &mut Slots, joint: u8)
    ensures { slots.new ≡ map (spared joint) slots.old }
{
    for slot in slots.iter_mut() {
        *slot = spare(*slot, joint);
    }
}

// Joint and side stay two parameters: one joint is asked at both sides, and a pair would be made for each call.
/// The joint at the far end of every edge that touches the joint at that side, if such edges have one far end.
pub(crate) fn only_end(slots: &Slots, side: Side, joint: u8) -> Option<u8>
    ensures { result ≡ only_of (far_ends side joint slots.now) }
{
    // Kept as a loop: once the first end is taken by `next`, a proof knows nothing of it or of those behind it.
    let mut only = None;
    for slot in slots {
        if let Some(edge) = touching(*slot, side, joint) {
            let end = edge.far(side);
            if only.is_some_and(|other| other != end) {
                return None;
            }
            only = Some(end);
        }
    }
    only
}

/// Whether the slot's edge, if any, goes from joint 0 to the coil joint.
fn goes_straight(slot: Option<Active>, coil: u8) -> bool
    ensures { result ≡ runs_straight coil slot }
{
    slot.is_none_or(|edge| edge.from == 0 && edge.to == coil)
}

/// Whether every edge goes from joint 0 to the coil joint.
pub(crate) fn all_straight(slots: &Slots, coil: u8) -> bool
    ensures { result ≡ straight coil slots.now }
{
    slots.iter().all(|slot| goes_straight(*slot, coil))
}
