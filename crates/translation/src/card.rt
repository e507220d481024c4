//! From a card to the words of its rungs.
ghost use Rattle.std.specs.Prelude.{◌≡◌, [], MatchResult};
ghost use Rattle.instructions.specs.Stores.{stored};
ghost use Rattle.programs.specs.Counts.{counts as counts_of};
ghost use Rattle.translation.specs.Judgement.{Told, CardTaken};

use super::ladder_fault::{AtRung, InRung, LadderFault};
use super::rung::translate;
use cards::{read_end, read_head, read_rung};
use instructions::Store;
use programs::{Program, counts};

/// Fills a store with the words of a card's rungs, and answers their four numbers: rungs, words, greatest depth
/// and the first rung with that depth. After a refusal the store is empty.
pub fn translate_card(
    card: &[u8],
    staged: &mut Store,
) -> Result<(usize, usize, usize, usize), LadderFault>
    ensures verdict { Told card.now result staged.new }
    ensures counted { MatchResult result (λ numbers. numbers ≡ counts_of (stored staged.new)) (λ _. stored staged.new ≡ []) }
{
    staged.clear();
    // Kept as a match: each arm has work of its own on the store, and `map` with `inspect_err` would lend it to two closures.
    match translate_rungs(card, staged) {
        Ok(()) => Ok(counts(staged.words())),
        Err(fault) => {
            staged.clear();
            Err(fault)
        }
    }
}

/// Adds the words of a card's rungs to an empty store, one rung after the other.
// Card and store stay two parameters, as the public calls have them: one is read, and the other filled and emptied.
fn translate_rungs(card: &[u8], staged: &mut Store) -> Result<(), LadderFault>
    requires { stored staged.old ≡ [] }
    ensures { Told card.now result staged.new }
{
    let mut progress = read_head(card).map_err(|fault| InRung { fault, rung: 0 })?;
    loop {
        // Noted before the rung is read: its faults are told with its number and its start.
        let rung = progress.rung();
        let bit = progress.bit();
        let read = read_rung(card, &mut progress).map_err(|fault| InRung { fault, rung })?;
        let Some(drawn) = read else {
            break;
        };
        translate(&drawn, staged).map_err(|fault| AtRung { fault, rung, bit })?;
    }
    let rung = progress.rung();
    read_end(card, &progress).map_err(|fault| InRung { fault, rung })?;
    Ok(())
}

/// Replaces a program by that of a card, through a staging store, and answers the four numbers; a refusal leaves the
/// program as it was.
pub fn take_card(
    card: &[u8],
    staged: &mut Store,
    program: &mut Program,
) -> Result<(usize, usize, usize, usize), LadderFault>
    ensures { CardTaken card.now program.old result program.new }
{
    let numbers = translate_card(card, staged)?;
    *program = Program::of(staged.words()).unwrap();
    Ok(numbers)
}
