//! The elimination of one joint after the other.
ghost use Rattle.std.specs.Prelude.{◌≡◌, ◌+◌, ◌≤◌, ◌≢◌, length};
ghost use Rattle.std.specs.List.{list_all};
ghost use Rattle.rows.specs.Rows.{parts_of};
ghost use Rattle.wiring.specs.Circuit.{circuit};
ghost use Rattle.wiring.specs.Elimination.{Eligible};
ghost use Rattle.elimination.specs.Slots.{edges, live, Stands};
ghost use Rattle.elimination.specs.Reduction.{candidate_of, Picked, Placed, Eliminated, Outcome};

use crate::groups::{Passage, merge};
use crate::slots::{Active, Side, Slots, all_straight, clear, only_end};
use crate::table::{Node, Table};
use wiring::Rung;

/// A rung that is being reduced: the wirings of its edges, and the edges between the joints that are left.
#[derive(Drop)]
pub(crate) struct Reduction {
    pub table: Table,
    pub slots: Slots,
    joints: u8,
    ghost stands: { Stands (parts_of table.nodes) slots },
    ghost room: { length (parts_of table.nodes) + live slots ≤ 128 },
    ghost two: { 2 ≤ joints },
    ghost most: { joints ≤ 32 },
}

/// The way through a joint that is not gone, if one joint is before it and one behind it.
fn candidate(slots: &Slots, gone: bool, joint: u8) -> Option<Passage>
    ensures { result ≡ candidate_of gone joint slots.now }
{
    if gone {
        return None;
    }
    let from = only_end(slots, Side::Entering, joint)?;
    let to = only_end(slots, Side::Leaving, joint)?;
    Some(Passage { joint, from, to })
}

/// Whether all these joints are gone.
fn all_gone(gone: &[bool]) -> bool
    ensures { result ≡ list_all (λ gone. gone) gone.now }
{
    gone.iter().all(|gone| *gone)
}

impl Reduction {
    /// The links of a rung, each in its slot.
    pub(crate) fn of(rung: &Rung) -> Reduction
        ensures joints { result.joints ≡ rung.now.joints }
        ensures placed { Placed (length (circuit rung.now).links) (circuit rung.now).links result.slots (parts_of result.table.nodes) }
    {
        let mut table = Table::new();
        let mut slots = [None; 64];
        for (i, link) in rung.links.iter().enumerate() {
            let at = table.push(Node::Link(i as u8));
            slots[i] = Some(Active {
                from: link.from,
                to: link.to,
                at,
            });
        }
        Reduction {
            table,
            slots,
            joints: rung.joints,
        }
    }

    /// An inner joint that is not gone and can be eliminated.
    fn pick(&self, gone: &[bool; 32]) -> Option<Passage>
        ensures { Picked self.now.joints gone.now self.now.slots result }
    {
        // Kept as a loop: of `(1..).zip(..).find_map(..)` it was not proved which joint it answers.
        for (i, gone) in gone[1..self.joints as usize - 1].iter().enumerate() {
            if let Some(passage) = candidate(&self.slots, *gone, i as u8 + 1) {
                return Some(passage);
            }
        }
        None
    }

    /// Puts one edge in the place of a joint and of all edges at it.
    fn eliminate(&mut self, passage: Passage)
        requires may { Eligible (edges (parts_of self.old.table.nodes) self.old.slots) passage.joint passage.from passage.to }
        requires apart { passage.from ≢ passage.to }
        ensures joints { self.new.joints ≡ self.old.joints }
        ensures step { Eliminated passage.joint passage.from passage.to self.old.slots (parts_of self.old.table.nodes) self.new.slots (parts_of self.new.table.nodes) }
    {
        let group = merge(&mut self.table, &self.slots, passage);
        clear(&mut self.slots, passage.joint);
        self.slots[group.low as usize] = Some(Active {
            from: passage.from,
            to: passage.to,
            at: group.at,
        });
    }

    /// Eliminates joints as long as one can be: true if every inner joint is gone and every edge that is left goes
    /// from joint 0 to the coil joint.
    pub(crate) fn reduce(&mut self) -> bool
        ensures { Outcome self.old.joints (length (parts_of self.old.table.nodes) + live self.old.slots) (edges (parts_of self.old.table.nodes) self.old.slots) self.new.slots (parts_of self.new.table.nodes) result }
    {
        let mut gone = [false; 32];
        while let Some(next) = self.pick(&gone) {
            if next.from == next.to {
                return false;
            }
            self.eliminate(next);
            gone[next.joint as usize] = true;
        }
        all_gone(&gone[1..self.joints as usize - 1]) && all_straight(&self.slots, self.joints - 1)
    }
}
