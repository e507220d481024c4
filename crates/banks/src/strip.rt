//! The strip: a layer over any bank with a mark for each input.
ghost use Rattle.std.specs.Prelude.{◌≡◌, ◌<◌, Bool, false, List, length, replicate, nat_lt, slice_index_or, slice_set};
ghost use Rattle.std.specs.Borrow.{follows, sem};
ghost use Rattle.std.specs.List.{slice_get};
ghost use Rattle.std.specs.Option.{option_map};
ghost use Rattle.banks.specs.Kept.{Elsewhere, layered};
ghost use Rattle.banks.specs.Layers.{strip_shows};
ghost use Rattle.banks.specs.contracts.strip.Strip.{the_row};
ghost use Rattle.banks.specs.Marks.{past};
ghost use Rattle.banks.specs.Refusals.{answered};
ghost use Rattle.banks.specs.Short.{shown_short};

use crate::bank::Bank;
use crate::refusal::Refusal;
use signals::Signal;

/// Inverts each marked input on reading and on writing.
#[derive(Drop)]
pub struct Strip<B> {
    bank: B,
    marks: [bool; 256],
}

/// Whether a point is a marked input.
fn mark_of(marks: &[bool; 256], index: usize) -> bool
    ensures { result ≡ slice_index_or marks.now index false }
{
    marks.get(index).copied().unwrap_or(false)
}

/// A signal on its way past the mark of a point, if it has one.
fn past_mark<S: Signal>(marks: &[bool; 256], index: usize, signal: S) -> S
    ensures { result ≡ past S.kind (slice_index_or marks.now index false) signal }
{
    if mark_of(marks, index) {
        signal.inverse()
    } else {
        signal
    }
}

impl<B: Bank> Strip<B> {
    /// A strip without marks, which shows the bank as it is.
    pub fn over(bank: B) -> Strip<B>
        ensures below { result.bank ≡ bank }
        ensures unmarked { result.marks ≡ replicate 256 false }
        ensures shows { strip_shows B.Kind.Signal.kind B.points result ≡ B.points bank }
    {
        Strip {
            bank,
            marks: [false; 256],
        }
    }

    /// The bank below again.
    pub fn into_bank(self) -> B
        ensures { result ≡ self.bank }
    {
        self.bank
    }

    /// The bank below.
    pub fn below(&self) -> &B
        ensures { result.now ≡ self.now.bank }
    {
        &self.bank
    }

    /// The bank below, to arrange it.
    pub fn below_mut(&mut self) -> &mut B
        ensures* follows { sem 𝓛 (follows (the_row B.row) B.row self.entry.ghost_name result.ghost_name (λ w. record { bank = w; marks = self.old.marks })) }
        ensures value { result.now ≡ self.old.bank }
    {
        &mut self.bank
    }

    /// Whether an input is marked; a number that is no input's has no mark.
    pub fn is_marked(&self, input: usize) -> bool
        ensures { result ≡ slice_index_or self.now.marks input false }
    {
        mark_of(&self.marks, input)
    }

    /// Sets or clears the mark of an input.
    pub fn mark(&mut self, input: usize, inverted: bool) -> Result<(), Refusal>
        ensures told { result ≡ answered (nat_lt input 256) }
        ensures below { self.new.bank ≡ self.old.bank }
        ensures marked { self.new.marks ≡ slice_set self.old.marks input inverted }
        ensures here { input < 256 → slice_get (strip_shows B.Kind.Signal.kind B.points self.new) input ≡ option_map (past B.Kind.Signal.kind inverted) (slice_get (B.points self.old.bank) input) }
        ensures elsewhere { Elsewhere input (strip_shows B.Kind.Signal.kind B.points self.old) (strip_shows B.Kind.Signal.kind B.points self.new) }
    {
        // Kept as a test of the number: behind a mark that `get_mut` lends, nothing is proved of the other marks.
        if input < 256 {
            self.marks[input] = inverted;
            Ok(())
        } else {
            Err(Refusal::NoSuchInput)
        }
    }
}

impl<B: Bank> Bank for Strip<B> {
    type Kind = B::Kind;

    ghost points = { λ b. strip_shows B.Kind.Signal.kind B.Bank.points b };

    ghost short = { λ b. shown_short B.Kind.Signal.kind b.marks (B.Bank.points b.bank) (B.Bank.short b.bank) };

    ghost Rest = { List Bool × B.Bank.Rest };

    ghost rest = { λ b. layered b.marks (B.Bank.rest b.bank) };

    fn count(&self) -> usize {
        self.bank.count()
    }

    fn read(&self, index: usize) -> Option<B::Kind> {
        self.bank
            .read(index)
            .map(|signal| past_mark(&self.marks, index, signal))
    }

    /// The marks stay, and the bank below takes the signal as the mark passes it on.
    fn write(&mut self, index: usize, signal: B::Kind) -> bool
        ensures told { result ≡ nat_lt index (length (strip_shows B.Kind.Signal.kind B.Bank.points self.old)) }
        ensures after { strip_shows B.Kind.Signal.kind B.Bank.points self.new ≡ slice_set (strip_shows B.Kind.Signal.kind B.Bank.points self.old) index signal }
        ensures untouched { layered self.new.marks (B.Bank.rest self.new.bank) ≡ layered self.old.marks (B.Bank.rest self.old.bank) }
        ensures below { B.Bank.points self.new.bank ≡ slice_set (B.Bank.points self.old.bank) index (past B.Kind.Signal.kind (slice_index_or self.old.marks index false) signal) }
    {
        let passed = past_mark(&self.marks, index, signal);
        self.bank.write(index, passed)
    }
}
