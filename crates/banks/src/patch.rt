//! The patch board: a layer over any bank that leads each input to an input below.
ghost use Rattle.std.specs.Prelude.{◌≡◌, ℕ, List, length, nat_lt, slice_set};
ghost use Rattle.std.specs.Borrow.{follows, sem};
ghost use Rattle.banks.specs.Kept.{layered};
ghost use Rattle.banks.specs.Layers.{board_shows};
ghost use Rattle.banks.specs.contracts.patch.PatchBoard.{the_row};
ghost use Rattle.banks.specs.Patches.{Straight, inputs, rewired, place, repatched};
ghost use Rattle.banks.specs.Refusals.{answered};
ghost use Rattle.banks.specs.Short.{patched_short};

use crate::bank::Bank;
use crate::refusal::Refusal;
use crate::table::Table;
use signals::Signal;

// Kept as a type beside the strip: what they share is four bodies of one line, and a trait over marks and table would
// need laws of place and passing that are as long as the two impls.
/// Reads and writes each input at the input below that the table gives for it.
#[derive(Drop)]
pub struct PatchBoard<B> {
    bank: B,
    table: Table,
}

impl<B: Bank> PatchBoard<B> {
    /// A board with each input at its own number, which shows the bank as it is.
    pub fn over(bank: B) -> PatchBoard<B>
        ensures below { result.bank ≡ bank }
        ensures straight { Straight result.table.to }
        ensures shows { board_shows B.Kind.Signal.kind B.points result ≡ B.points bank }
    {
        let table = Table::straight();
        PatchBoard { bank, table }
    }

    /// The bank below again.
    pub fn into_bank(self) -> B
        ensures { result ≡ self.bank }
    {
        self.bank
    }

    /// The bank below.
    pub fn below(&self) -> &B
        ensures { result.now ≡ self.now.bank }
    {
        &self.bank
    }

    /// The bank below, to arrange it.
    pub fn below_mut(&mut self) -> &mut B
        ensures* follows { sem 𝓛 (follows (the_row B.row) B.row self.entry.ghost_name result.ghost_name (λ w. record { bank = w; table = self.old.table })) }
        ensures value { result.now ≡ self.old.bank }
    {
        &mut self.bank
    }

    /// Swaps the table's entries of two inputs.
    pub fn exchange(&mut self, a: usize, b: usize) -> Result<(), Refusal>
        ensures told { result ≡ answered (inputs a b) }
        ensures below { self.new.bank ≡ self.old.bank }
        ensures swaps { self.new.table.to ≡ rewired self.old.table.to a b }
        ensures shows { board_shows B.Kind.Signal.kind B.points self.new ≡ repatched B.Kind.Signal.kind (board_shows B.Kind.Signal.kind B.points self.old) a b }
    {
        let (Ok(a), Ok(b)) = (u8::try_from(a), u8::try_from(b)) else {
            return Err(Refusal::NoSuchInput);
        };
        self.table.exchange(a, b);
        Ok(())
    }
}

impl<B: Bank> Bank for PatchBoard<B> {
    type Kind = B::Kind;

    ghost points = { λ b. board_shows B.Kind.Signal.kind B.Bank.points b };

    ghost short = { λ b. patched_short B.Kind.Signal.kind b.table.to (B.Bank.points b.bank) (B.Bank.short b.bank) };

    ghost Rest = { List ℕ × B.Bank.Rest };

    ghost rest = { λ b. layered b.table.to (B.Bank.rest b.bank) };

    fn count(&self) -> usize {
        self.bank.count()
    }

    fn read(&self, index: usize) -> Option<B::Kind> {
        let at = self.table.place(self.bank.count(), index);
        self.bank.read(at)
    }

    /// The table stays, and the bank below takes the signal at the point's place.
    fn write(&mut self, index: usize, signal: B::Kind) -> bool
        ensures told { result ≡ nat_lt index (length (board_shows B.Kind.Signal.kind B.Bank.points self.old)) }
        ensures after { board_shows B.Kind.Signal.kind B.Bank.points self.new ≡ slice_set (board_shows B.Kind.Signal.kind B.Bank.points self.old) index signal }
        ensures untouched { layered self.new.table.to (B.Bank.rest self.new.bank) ≡ layered self.old.table.to (B.Bank.rest self.old.bank) }
        ensures below { B.Bank.points self.new.bank ≡ slice_set (B.Bank.points self.old.bank) (place self.old.table.to (length (B.Bank.points self.old.bank)) index) signal }
    {
        let at = self.table.place(self.bank.count(), index);
        self.bank.write(at, signal)
    }
}
