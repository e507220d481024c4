//! Whole runs.
ghost use Rattle.std.specs.Prelude.{◌≡◌, length, MatchResult};
ghost use Rattle.controller.specs.Runs.{NoScan};
ghost use Rattle.controller.specs.Standing.{Step, lending, given, Performs, Declined, Operated};

use super::call::{Answer, Call};
use super::controller::Controller;
use banks::Bank;
use instructions::ShortBuffer;

/// The controller after a run, and whether its calls were performed.
#[derive(Drop)]
pub struct Outcome<B: Bank> {
    pub controller: Controller<B>,
    pub performed: Result<(), ShortBuffer>,
}

/// Makes a controller from a bank, performs the calls in order, and leaves their answers.
///
/// A scan is lent as many of the working signals as its call says, or all that there are; a writing is lent as many of
/// the bytes. With fewer places for answers than calls, nothing is performed. The controller is returned either way.
pub fn operate<B: Bank>(
    bank: B,
    calls: &[Call<'_, B::Kind>],
    work: &mut [B::Kind],
    buffer: &mut [u8],
    answers: &mut [Answer<B::Kind>],
) -> Outcome<B>
    ensures run { Operated B.Kind.Signal.kind B.points (B.points bank) calls.now (given work.old buffer.old answers.old) result.controller result.performed (given work.new buffer.new answers.new) }
    ensures untouched { B.rest result.controller.bank ≡ B.rest bank }
{
    let mut controller = Controller::make(bank);
    let performed = controller.perform(calls, work, buffer, answers);
    Outcome {
        controller,
        performed,
    }
}

impl<B: Bank> Controller<B> {
    /// Performs the calls in order, and leaves their answers. With fewer places for them than calls, nothing is performed.
    pub fn perform(
        &mut self,
        calls: &[Call<'_, B::Kind>],
        work: &mut [B::Kind],
        buffer: &mut [u8],
        answers: &mut [Answer<B::Kind>],
    ) -> Result<(), ShortBuffer>
        ensures run { MatchResult result
            (λ _. Performs B.Kind.Signal.kind B.points self.old calls.now
            (given work.old buffer.old answers.old)
            (given work.new buffer.new answers.new) self.new)
            (λ _. Declined calls.now
            (given work.old buffer.old answers.old)
            (given work.new buffer.new answers.new)
            × (self.new ≡ self.old)) }
        ensures untouched { B.rest self.new.bank ≡ B.rest self.old.bank }
    {
        if answers.len() < calls.len() {
            return Err(ShortBuffer);
        }
        // The places are indexed: after a zip over `answers.iter_mut()` a proof knows none of them.
        for (i, call) in calls.iter().enumerate() {
            answers[i] = self.answer(call, work, buffer);
        }
        Ok(())
    }

    // Signals and bytes stay two parameters, as the public calls have them: a scan needs the one, a writing the other.
    /// Performs one call: it is lent as many of the working signals or bytes as it wants, or all that there are.
    fn answer(
        &mut self,
        call: &Call<'_, B::Kind>,
        work: &mut [B::Kind],
        buffer: &mut [u8],
    ) -> Answer<B::Kind>
        ensures step { Step B.Kind.Signal.kind B.points self.old buffer.old (lending (length work.old) (length buffer.old) call.now) result self.new buffer.new }
        ensures work { NoScan (lending (length work.old) (length buffer.old) call.now, result) → work.new ≡ work.old }
        ensures untouched { B.rest self.new.bank ≡ B.rest self.old.bank }
    {
        let signals = work.len();
        let bytes = buffer.len();
        match *call {
            Call::InstallCard(card) => Answer::Install(self.install_card(card)),
            Call::InstallListing(listing) => Answer::Install(self.install_listing(listing)),
            Call::SetInput(number, signal) => Answer::Change(self.set_input(number, signal)),
            Call::ReadPoint(index) => Answer::Reading(self.read_point(index)),
            Call::Scan(wanted) => {
                let part = &mut work[..wanted.min(signals)];
                Answer::Change(self.scan(part))
            }
            Call::WriteListing(wanted) => {
                let part = &mut buffer[..wanted.min(bytes)];
                Answer::Writing(self.write_listing(part))
            }
            Call::WriteStatus(wanted) => {
                let part = &mut buffer[..wanted.min(bytes)];
                Answer::Writing(self.write_status(part))
            }
        }
    }
}
