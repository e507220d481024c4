//! Rungs, read from a card one after the other.
ghost use Rattle.std.specs.Prelude.{◌≡◌, ◌*◌, ◌≤◌, [], length, OnOk};
ghost use Rattle.rows.specs.Rows.{parts_of};
ghost use Rattle.wiring.specs.Circuit.{circuit};
ghost use Rattle.cards.specs.Rungs.{row_at, sized, sizes_at, rung_at, rung_bits};
ghost use Rattle.cards.specs.Reading.{Room, Ahead, Took, Means};

use super::bits::Bits;
use super::fault::{CardCause, CardFault};
use super::part::Part;
use super::sizes::Sizes;
use rows::Row;
use wiring::Rung;

fn sizes_of(bit: u32, joints: u16, links: u16, coils: u16) -> Result<Sizes, CardFault>
    ensures { result ≡ sized bit joints links coils }
{
    match (joints, links, coils) {
        (2..=32, 1..=64, 1..=8) => Ok(Sizes {
            joints: joints as u8,
            links: links as u8,
            coils: coils as u8,
        }),
        _ => Err(CardCause::Counts.at(bit)),
    }
}

impl Bits<'_> {
    /// The rung that comes next.
    pub(crate) fn rung(&mut self) -> Result<Rung, CardFault>
        requires { Room self.old 1521 }
        ensures value { Means result (rung_at self.old.bytes.now self.old.at) }
        ensures ahead { Ahead self.old (λ rung. rung_bits (circuit rung)) result self.new }
    {
        let sizes = self.sizes()?;
        let mut links = Row::new();
        self.fill(&mut links, sizes.joints, sizes.links)?;
        let mut coils = Row::new();
        self.fill(&mut coils, sizes.joints, sizes.coils)?;
        Ok(Rung {
            joints: sizes.joints,
            links,
            coils,
        })
    }

    /// The three counts that come next, within their limits.
    fn sizes(&mut self) -> Result<Sizes, CardFault>
        requires { Room self.old 17 }
        ensures value { result ≡ sizes_at self.old.bytes.now self.old.at }
        ensures ahead { Ahead self.old (λ _. 17) result self.new }
    {
        let bit = self.at;
        let joints = self.field(6)?;
        let links = self.field(7)?;
        let coils = self.field(4)?;
        sizes_of(bit, joints, links, coils)
    }

    /// Fills an empty row with the `count` parts that come next, in a rung of so many joints.
    // The row is lent: a generic function cannot show that a row of its own fits in memory.
    fn fill<T: Part, const N: usize>(
        &mut self,
        row: &mut Row<T, N>,
        joints: u8,
        count: u8,
    ) -> Result<(), CardFault>
        requires near { Room self.old (T.width * count) }
        requires empty { parts_of row.old ≡ [] }
        requires few { count ≤ N }
        ensures value { Took result (row_at (T.part_at self.old.bytes.now joints) T.width count self.old.at) (parts_of row.new) }
        ensures many { OnOk result (length (parts_of row.new) ≡ count) }
        ensures ahead { Ahead self.old (λ _. T.width * count) result self.new }
    {
        // Kept as a loop: a part that is refused ends it, and `collect` tells a proof nothing of when.
        for _ in 0..count {
            let _ = row.push(T::read(self, joints)?);
        }
        Ok(())
    }
}
