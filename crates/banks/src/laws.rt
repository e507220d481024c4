//! What may be relied on of every bank and layer, each a call whose contract is the law.
ghost use Rattle.std.specs.Prelude.{◌≡◌, true, false, length, replicate, nat_lt, slice_set};
ghost use Rattle.banks.specs.Kept.{read_back, Elsewhere};
ghost use Rattle.banks.specs.Layers.{board_shows, strip_shows};
ghost use Rattle.banks.specs.Patches.{inputs};
ghost use Rattle.banks.specs.Refusals.{answered};

use crate::bank::Bank;
use crate::patch::PatchBoard;
use crate::refusal::Refusal;
use crate::strip::Strip;

/// What is written to a point is read back, and every other point stays.
pub fn write_and_read<B: Bank>(bank: &mut B, index: usize, signal: B::Kind) -> Option<B::Kind>
    ensures back { result ≡ read_back (B.points bank.old) index signal }
    ensures elsewhere { Elsewhere index (B.points bank.old) (B.points bank.new) }
    ensures count { length (B.points bank.new) ≡ length (B.points bank.old) }
    ensures untouched { B.rest bank.new ≡ B.rest bank.old }
{
    let _ = bank.write(index, signal);
    bank.read(index)
}

/// Marking an input twice alike is marking it once.
pub fn mark_twice<B: Bank>(
    strip: &mut Strip<B>,
    input: usize,
    inverted: bool,
) -> Result<(), Refusal>
    ensures told { result ≡ answered (nat_lt input 256) }
    ensures below { strip.new.bank ≡ strip.old.bank }
    ensures once { strip.new.marks ≡ slice_set strip.old.marks input inverted }
{
    let _ = strip.mark(input, inverted);
    strip.mark(input, inverted)
}

/// A mark that is changed and changed back leaves the strip as it was.
pub fn mark_and_restore<B: Bank>(
    strip: &mut Strip<B>,
    input: usize,
    changed: bool,
) -> Result<(), Refusal>
    ensures told { result ≡ answered (nat_lt input 256) }
    ensures below { strip.new.bank ≡ strip.old.bank }
    ensures restored { strip.new.marks ≡ strip.old.marks }
{
    let before = strip.is_marked(input);
    let _ = strip.mark(input, changed);
    strip.mark(input, before)
}

/// An input marked on both of two strips, one on the other, shows what it shows unmarked.
pub fn mark_on_both<B: Bank>(bank: B, input: usize) -> Strip<Strip<B>>
    ensures below { result.bank.bank ≡ bank }
    ensures upper { result.marks ≡ slice_set (replicate 256 false) input true }
    ensures lower { result.bank.marks ≡ slice_set (replicate 256 false) input true }
    ensures shows { strip_shows B.Kind.Signal.kind (strip_shows B.Kind.Signal.kind B.points) result ≡ B.points bank }
{
    let mut lower = Strip::over(bank);
    let _ = lower.mark(input, true);
    let mut upper = Strip::over(lower);
    let _ = upper.mark(input, true);
    upper
}

/// An exchange followed by the same exchange restores the board.
pub fn exchange_twice<B: Bank>(board: &mut PatchBoard<B>, a: usize, b: usize) -> Result<(), Refusal>
    ensures told { result ≡ answered (inputs a b) }
    ensures below { board.new.bank ≡ board.old.bank }
    ensures restored { board.new.table.to ≡ board.old.table.to }
    ensures shows { board_shows B.Kind.Signal.kind B.points board.new ≡ board_shows B.Kind.Signal.kind B.points board.old }
{
    let _ = board.exchange(a, b);
    board.exchange(a, b)
}
