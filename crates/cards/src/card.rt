//! A card from its head to its end.
ghost use Rattle.std.specs.Prelude.{◌≡◌, ◌+◌, ◌-◌, ◌*◌, ◌<◌, ◌≤◌};
ghost use Rattle.cards.specs.Cards.{few_rungs, Headed, HeadRead, RungRead, end_at, progress_rung};

use super::bits::{Bits, bit};
use super::fault::{CardCause, CardFault};
use super::progress::Progress;
use wiring::Rung;

impl Progress {
    /// The bit at which the next field starts.
    pub fn bit(&self) -> u32
        ensures { result ≡ self.now.at }
    {
        self.at
    }

    /// The number of the next rung, counted from 0.
    pub fn rung(&self) -> u8
        ensures { result ≡ progress_rung self.now }
    {
        self.rungs - self.left
    }
}

/// Reads the head of a card: the number of its rungs.
pub fn read_head(bytes: &[u8]) -> Result<Progress, CardFault>
    ensures { HeadRead bytes.now result }
{
    let mut bits = Bits { bytes, at: 0 };
    let rungs = bits.field(8)?;
    progress_of(rungs)
}

fn progress_of(rungs: u16) -> Result<Progress, CardFault>
    ensures { Headed (few_rungs rungs) result }
{
    if rungs > 128 {
        return Err(CardCause::TooManyRungs.at(0));
    }
    let rungs = rungs as u8;
    Ok(Progress {
        at: 8,
        rungs,
        left: rungs,
    })
}

/// Reads the next rung, if one is left. At a fault nothing moves.
pub fn read_rung(bytes: &[u8], progress: &mut Progress) -> Result<Option<Rung>, CardFault>
    ensures { RungRead bytes.now progress.old result progress.new }
{
    if progress.left == 0 {
        return Ok(None);
    }
    let mut bits = Bits {
        bytes,
        at: progress.at,
    };
    let rung = bits.rung()?;
    *progress = Progress {
        at: bits.at,
        rungs: progress.rungs,
        left: progress.left - 1,
    };
    Ok(Some(rung))
}

/// Whether zero bits fill the last byte and nothing follows.
pub fn read_end(bytes: &[u8], progress: &Progress) -> Result<(), CardFault>
    ensures { result ≡ end_at bytes.now progress.now.at }
{
    let end = (progress.at + 7) / 8 * 8;
    if let Some(one) = (progress.at..end).find(|i| bit(bytes, *i) != 0) {
        return Err(CardCause::Padding.at(one));
    }
    if bytes.len() > (end / 8) as usize {
        return Err(CardCause::Padding.at(end));
    }
    Ok(())
}
