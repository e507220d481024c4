//! What words do, for every kind of signal and every bank.
ghost use Rattle.std.specs.Prelude.{◌≡◌, true, List, [], length};
ghost use Rattle.instructions.specs.Words.{instruction_of};
ghost use Rattle.scanning.specs.Machine.{signal_at, signal_of, driven, coiled_onto, rejoined, acts, acts_if, runs, fresh};
ghost use Rattle.scanning.specs.Working.{pile, standing, roomy, roomy_if, fitting};

use super::brackets::Brackets;
use super::joining::Joining;
use banks::Bank;
use instructions::{Instruction, Operand};
use points::Point;
use signals::Signal;
use wiring::Action;

/// The signal of a point; off where the bank has no such point.
fn signal_at<B: Bank>(bank: &B, point: Point) -> B::Kind
    ensures { result ≡ signal_at B.Kind.Signal.kind (B.points bank.now) point }
{
    bank.read(point.index()).unwrap_or(B::Kind::off())
}

/// The signal of an operand.
fn signal_of<B: Bank>(bank: &B, operand: Operand) -> B::Kind
    ensures { result ≡ signal_of B.Kind.Signal.kind (B.points bank.now) operand }
{
    match operand {
        Operand::True => B::Kind::on(),
        Operand::At(point) => signal_at(bank, point),
    }
}

/// What a coil makes of its point's signal with the signal that it receives.
fn drive<S: Signal>(action: Action, point: S, received: S) -> S
    ensures { result ≡ driven S.kind action point received }
{
    match action {
        Action::Store => received,
        Action::StoreNot => received.inverse(),
        Action::Set => point.parallel(received),
        Action::Reset => point.series(received.inverse()),
    }
}

/// Does what a coil does with the signal that it receives; `TRUE` is no point, and nothing is stored there.
fn coil<B: Bank>(action: Action, operand: Operand, received: B::Kind, bank: &mut B)
    ensures after { B.points bank.new ≡ coiled_onto B.Kind.Signal.kind action operand received (B.points bank.old) }
    ensures untouched { B.rest bank.new ≡ B.rest bank.old }
{
    if let Operand::At(point) = operand {
        let signal = drive(action, signal_at(bank, point), received);
        let _ = bank.write(point.index(), signal);
    }
}

/// What a scan carries from word to word: the result, and the brackets that are open.
// The bank is passed and not held: of a bank that is lent to a struct with a signal in it, the lender learns nothing.
// The brackets are lent: with their array beside it the result was kept in memory, at 4.4 ns a word in place of 3.8.
#[derive(Drop)]
pub(crate) struct Engine<'a, 'w, B: Bank> {
    result: B::Kind,
    brackets: &'a mut Brackets<'w, B::Kind>,
}

impl<'a, 'w, B: Bank> Engine<'a, 'w, B> {
    /// The start of a scan, with no open brackets.
    pub(crate) fn over(brackets: &'a mut Brackets<'w, B::Kind>) -> Engine<'a, 'w, B>
        requires { pile brackets.old ≡ [] }
        ensures { (points : List B.Kind) → standing result points ≡ fresh B.Kind.Signal.kind points }
    {
        Engine {
            result: B::Kind::off(),
            brackets,
        }
    }

    /// Closes a bracket: the result set aside last, standing first, is joined with the result.
    fn close(&mut self)
        ensures { (points : List B.Kind) → standing self.new points ≡ rejoined B.Kind.Signal.kind (pile self.old.brackets.now) (standing self.old points) }
    {
        if let Some((first, joining)) = self.brackets.take_back() {
            self.result = joining.join(first, self.result);
        }
    }

    /// Performs one instruction.
    fn step(&mut self, instruction: Instruction, bank: &mut B)
        requires { roomy (length (pile self.old.brackets.now)) instruction ≡ true }
        ensures acts { standing self.new (B.points bank.new) ≡ acts B.Kind.Signal.kind instruction (standing self.old (B.points bank.old)) }
        ensures untouched { B.rest bank.new ≡ B.rest bank.old }
    {
        let result = self.result;
        match instruction {
            Instruction::Load(operand) => self.result = signal_of(bank, operand),
            Instruction::LoadNot(operand) => self.result = signal_of(bank, operand).inverse(),
            Instruction::And(operand) => self.result = result.series(signal_of(bank, operand)),
            Instruction::AndNot(operand) => {
                self.result = result.series(signal_of(bank, operand).inverse());
            }
            Instruction::Or(operand) => self.result = result.parallel(signal_of(bank, operand)),
            Instruction::OrNot(operand) => {
                self.result = result.parallel(signal_of(bank, operand).inverse());
            }
            Instruction::AndOpen => self.brackets.set_aside(result, Joining::Series),
            Instruction::OrOpen => self.brackets.set_aside(result, Joining::Parallel),
            Instruction::Close => self.close(),
            Instruction::Store(operand) => coil(Action::Store, operand, result, bank),
            Instruction::StoreNot(operand) => coil(Action::StoreNot, operand, result, bank),
            Instruction::Set(operand) => coil(Action::Set, operand, result, bank),
            Instruction::Reset(operand) => coil(Action::Reset, operand, result, bank),
        }
    }

    /// Performs one word; a word that stands for no instruction does nothing.
    fn perform(&mut self, word: u16, bank: &mut B)
        requires { roomy_if (length (pile self.old.brackets.now)) (instruction_of word) ≡ true }
        ensures acts { standing self.new (B.points bank.new) ≡ acts_if B.Kind.Signal.kind (instruction_of word) (standing self.old (B.points bank.old)) }
        ensures untouched { B.rest bank.new ≡ B.rest bank.old }
    {
        if let Ok(instruction) = Instruction::try_from(word) {
            self.step(instruction, bank);
        }
    }

    /// Performs words, one after the other. That their brackets fit is what the type of a program supplies.
    pub(crate) fn run(&mut self, words: &[u16], bank: &mut B)
        requires { fitting (length (pile self.old.brackets.now)) words.now ≡ true }
        ensures runs { standing self.new (B.points bank.new) ≡ runs B.Kind.Signal.kind words.now (standing self.old (B.points bank.old)) }
        ensures untouched { B.rest bank.new ≡ B.rest bank.old }
    {
        for word in words {
            self.perform(*word, bank);
        }
    }
}
