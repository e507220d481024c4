//! From a rung to its words.
ghost use Rattle.wiring.specs.Circuit.{circuit};
ghost use Rattle.translation.specs.Translation.{Translated};

use super::emitters::draft_of;
use super::rung_fault::RungFault;
use elimination::{Table, decompose};
use instructions::{Store, depth};
use wiring::Rung;

/// Adds the words of a rung to a store; a refusal leaves the store as it was.
pub fn translate(rung: &Rung, store: &mut Store) -> Result<(), RungFault>
    ensures { Translated (circuit rung.now) store.old result store.new }
{
    let mut table = Table::new();
    let root = decompose(rung, &mut table).ok_or(RungFault::NotSeriesParallel)?;
    let draft = draft_of(rung, &table, root);
    if depth(&draft) > 15 {
        return Err(RungFault::TooDeep);
    }
    store.append(&draft).map_err(|_full| RungFault::TooLong)
}
