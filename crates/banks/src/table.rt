//! The patch board's table, which its type keeps a permutation.
ghost use Rattle.std.specs.Prelude.{◌≡◌, length};
ghost use Rattle.banks.specs.Patches.{Within, Apart, Straight, swapped, place};

use std::array;

/// For each input the number of an input below; no two inputs share one.
#[derive(Clone, Copy)]
pub struct Table {
    to: [u8; 256],
    ghost whole: { length to ≡ 256 },
    ghost within: { Within to },
    ghost apart: { Apart to },
}

impl Table {
    /// Each input at its own number.
    pub fn straight() -> Table
        ensures { Straight result.to }
    {
        let to = array::from_fn(|input| input as u8);
        Table { to }
    }

    /// Swaps the entries of two inputs. The table is written back whole, so that it is a permutation at every moment.
    pub fn exchange(&mut self, a: u8, b: u8)
        ensures { self.new.to ≡ swapped 0 self.old.to a b }
    {
        let mut to = self.to;
        to.swap(a as usize, b as usize);
        self.to = to;
    }

    /// Where a point of a bank that counts `count` lies below.
    pub fn place(&self, count: usize, index: usize) -> usize
        ensures { result ≡ place self.now.to count index }
    {
        if 256 <= count && index < 256 {
            self.to[index] as usize
        } else {
            index
        }
    }
}
