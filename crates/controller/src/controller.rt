//! The controller, and its calls.
ghost use Rattle.std.specs.Prelude.{◌≡◌, ℕ, ◌<◌, ◌≤◌, List, length, MatchResult, OnErr};
ghost use Rattle.controller.specs.declared.call.Call.TheVariants.{InstallCard, InstallListing, SetInput, ReadPoint, Scan, WriteListing, WriteStatus};
ghost use Rattle.controller.specs.declared.call.Answer.TheVariants.{Install, Change, Reading, Writing};
ghost use Rattle.controller.specs.Standing.{Stands, Step, DryStep, made};

use super::install_fault::InstallFault;
use super::refusal::{Refusal, SmallBank};
use banks::Bank;
use instructions::{ShortBuffer, Store};
use listings::read_into;
use programs::Program;
use scanning::scan;
use translation::take_card;

/// A bank, the program that is scanned over it, and room to stage an install.
#[derive(Drop)]
pub struct Controller<B: Bank> {
    bank: B,
    program: Program,
    staged: Store,
}

impl<B: Bank> Controller<B> {
    /// A controller over a bank, with a program of no rungs, which counts as one from a card.
    pub fn make(bank: B) -> Controller<B>
        ensures stands { (buffer : List ℕ) → Stands B.points result buffer (made (B.points bank) buffer) }
        ensures same { result.bank ≡ bank }
    {
        Controller {
            bank,
            program: Program::empty(),
            staged: Store::new(),
        }
    }

    /// The bank.
    pub fn bank(&self) -> &B
        ensures { result.now ≡ self.now.bank }
    {
        &self.bank
    }

    /// The bank, given back.
    pub fn into_bank(self) -> B
        ensures { result ≡ self.bank }
    {
        // The program and the room for staging are let go.
        self.bank
    }

    /// That the bank counts all points.
    fn whole_bank(&self) -> Result<(), SmallBank>
        ensures { MatchResult result (λ _. 768 ≤ length (B.points self.now.bank)) (λ _. length (B.points self.now.bank) < 768) }
    {
        if self.bank.count() < 768 {
            return Err(SmallBank);
        }
        Ok(())
    }

    /// Installs the program of a card, and answers rungs, words, greatest depth and the first rung with that depth.
    pub fn install_card(
        &mut self,
        card: &[u8],
    ) -> Result<(usize, usize, usize, usize), InstallFault>
        ensures step { DryStep B.Kind.Signal.kind B.points self.old (InstallCard card.entry) (Install result) self.new }
        ensures bank { self.new.bank ≡ self.old.bank }
    {
        self.whole_bank()?;
        Ok(take_card(card, &mut self.staged, &mut self.program)?)
    }

    /// Installs the program that a listing says, and answers rungs, words, greatest depth and the first rung with that depth.
    pub fn install_listing(
        &mut self,
        listing: &[u8],
    ) -> Result<(usize, usize, usize, usize), InstallFault>
        ensures step { DryStep B.Kind.Signal.kind B.points self.old (InstallListing listing.entry) (Install result) self.new }
        ensures bank { self.new.bank ≡ self.old.bank }
    {
        self.whole_bank()?;
        Ok(read_into(listing, &mut self.program)?)
    }

    /// Sets the input of a number.
    pub fn set_input(&mut self, number: usize, signal: B::Kind) -> Result<(), Refusal>
        ensures step { DryStep B.Kind.Signal.kind B.points self.old (SetInput number signal) (Change result) self.new }
        ensures untouched { B.rest self.new.bank ≡ B.rest self.old.bank }
    {
        self.whole_bank()?;
        if number >= 256 {
            return Err(Refusal::NoSuchPoint);
        }
        let _ = self.bank.write(number, signal);
        Ok(())
    }

    /// Reads the point at an index.
    pub fn read_point(&self, index: usize) -> Result<B::Kind, Refusal>
        ensures { DryStep B.Kind.Signal.kind B.points self.now (ReadPoint index) (Reading result) self.now }
    {
        self.whole_bank()?;
        self.bank.read(index).ok_or(Refusal::NoSuchPoint)
    }

    /// Scans the program once over at least 15 working signals, which hold any signals afterwards.
    pub fn scan(&mut self, work: &mut [B::Kind]) -> Result<(), Refusal>
        ensures step { DryStep B.Kind.Signal.kind B.points self.old (Scan (length work.old)) (Change result) self.new }
        ensures work { OnErr result (work.new ≡ work.old) }
        ensures untouched { B.rest self.new.bank ≡ B.rest self.old.bank }
    {
        // The bank is tested before the working signals.
        self.whole_bank()?;
        Ok(scan(&self.program, work, &mut self.bank)?)
    }

    /// Writes the listing of the program: its length is answered, later bytes stay.
    pub fn write_listing(&self, buffer: &mut [u8]) -> Result<usize, ShortBuffer>
        ensures { Step B.Kind.Signal.kind B.points self.now buffer.old (WriteListing (length buffer.old)) (Writing result) self.now buffer.new }
    {
        self.program.write_listing(buffer)
    }

    /// Writes the status line: its length is answered, later bytes stay.
    pub fn write_status(&self, buffer: &mut [u8]) -> Result<usize, ShortBuffer>
        ensures { Step B.Kind.Signal.kind B.points self.now buffer.old (WriteStatus (length buffer.old)) (Writing result) self.now buffer.new }
    {
        self.program.write_status(buffer)
    }
}
