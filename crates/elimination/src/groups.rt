//! Branch groups, and the edge that takes the place of a joint.
ghost use Rattle.std.specs.Prelude.{◌+◌, ◌≤◌, map, length};
ghost use Rattle.rows.specs.Rows.{parts_of};
ghost use Rattle.wiring.specs.Elimination.{Eligible};
ghost use Rattle.elimination.specs.Slots.{touch, edges, live, Stands};
ghost use Rattle.elimination.specs.Groups.{Grown, Sits, SitsGroup, Room, Extends, Gathered, Merged};

use crate::slots::{Active, Side, Slots, touching};
use crate::table::{Node, Table};

/// A branch group: its position in the table, and its lowest link.
#[derive(Clone, Copy)]
pub(crate) struct Group {
    pub at: u8,
    pub low: u8,
}

/// A joint that can be eliminated: all its edges in come from one joint, and all its edges out go to one.
#[derive(Clone, Copy)]
pub(crate) struct Passage {
    pub joint: u8,
    pub from: u8,
    pub to: u8,
}

/// The group with one edge more, whose lowest link is below the group's.
fn extend(table: &mut Table, slot: Option<Active>, low: u8, group: Option<Group>) -> Option<Group>
    requires slot { Sits (length (parts_of table.old.nodes)) slot }
    requires group { SitsGroup (length (parts_of table.old.nodes)) group }
    requires room { Room (length (parts_of table.old.nodes)) slot group }
    ensures grown { Grown (parts_of table.old.nodes) (parts_of table.new.nodes) }
    ensures value { Extends low (parts_of table.old.nodes) (parts_of table.new.nodes) slot group result }
{
    match (slot, group) {
        (None, _) => group,
        (Some(edge), None) => Some(Group { at: edge.at, low }),
        (Some(edge), Some(rest)) => {
            let at = table.push(Node::Parallel(edge.at, rest.at));
            Some(Group { at, low })
        }
    }
}

// Functions over table and slots and no methods of `Reduction`: until the edges of a group are cleared there may be more
// nodes and edges than its type allows.
/// The group of the edges that touch the joint at that side, in the order of their lowest links.
pub(crate) fn gather(table: &mut Table, slots: &Slots, side: Side, joint: u8) -> Option<Group>
    requires stands { Stands (parts_of table.old.nodes) slots.now }
    requires room { length (parts_of table.old.nodes) + live (map (touch side joint) slots.now) ≤ 128 }
    ensures { Gathered 0 (map (touch side joint) slots.now) (parts_of table.old.nodes) (parts_of table.new.nodes) result }
{
    // Kept as a loop: each turn also adds to the table, and of what a fold's closure changes a proof knows nothing.
    let mut group = None;
    for (i, slot) in slots.iter().enumerate().rev() {
        group = extend(table, touching(*slot, side, joint), i as u8, group);
    }
    group
}

/// The group into a joint in series with the group out of it.
pub(crate) fn merge(table: &mut Table, slots: &Slots, passage: Passage) -> Group
    requires stands { Stands (parts_of table.old.nodes) slots.now }
    requires room { length (parts_of table.old.nodes) + live slots.now ≤ 128 }
    requires may { Eligible (edges (parts_of table.old.nodes) slots.now) passage.joint passage.from passage.to }
    ensures { Merged passage.joint slots.now (parts_of table.old.nodes) (parts_of table.new.nodes) result }
{
    let into = gather(table, slots, Side::Entering, passage.joint).unwrap();
    let out = gather(table, slots, Side::Leaving, passage.joint).unwrap();
    let at = table.push(Node::Series(into.at, out.at));
    Group {
        at,
        low: into.low.min(out.low),
    }
}
