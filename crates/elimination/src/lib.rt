//! Recognition of series-parallel rungs by the elimination of joints.
#![tactic(auto)]

ghost use Rattle.rows.specs.Rows.{parts_of};
ghost use Rattle.wiring.specs.Circuit.{circuit};
ghost use Rattle.elimination.specs.Answer.{Answer};

mod groups;
mod reduction;
mod slots;
mod table;

use groups::gather;
use reduction::Reduction;
use slots::Side;
pub use table::{Node, Table};
use wiring::Rung;

/// Finds the wiring that reads a rung, and leaves it in the table: the position of its root, or `None` if the
/// rung is not series-parallel.
pub fn decompose(rung: &Rung, table: &mut Table) -> Option<u8>
    ensures { Answer (circuit rung.now) (parts_of table.new.nodes) result }
{
    let mut reduction = Reduction::of(rung);
    if !reduction.reduce() {
        return None;
    }
    let Reduction {
        table: mut reduced,
        slots,
        ..
    } = reduction;
    let group = gather(&mut reduced, &slots, Side::Leaving, 0)?;
    *table = reduced;
    Some(group.at)
}
