//! Layers on layers, over any bank and over lent memory.
ghost use Rattle.std.specs.Prelude.{◌≡◌, take, drop};
ghost use Rattle.std.specs.List.{slice_get};
ghost use Rattle.banks.specs.Kept.{read_back, Elsewhere};
ghost use Rattle.banks.specs.Packing.{unpacked};

use banks::{Bank, OpenBank, PackedBank, PatchBoard, Strip, mark_on_both, write_and_read};
use signals::{Doubtful, Plain, Signal};

/// Writes to an input through its mark, over a board that has exchanged it, and reads it back.
pub fn strip_over_board<B: Bank>(
    bank: B,
    input: usize,
    other: usize,
    signal: B::Kind,
) -> (Option<B::Kind>, B)
    ensures back { result.0 ≡ read_back (B.points bank) input signal }
    ensures untouched { B.rest result.1 ≡ B.rest bank }
{
    let mut board = PatchBoard::over(bank);
    let _ = board.exchange(input, other);
    let mut strip = Strip::over(board);
    let _ = strip.mark(input, true);
    let read = write_and_read(&mut strip, input, signal);
    (read, strip.into_bank().into_bank())
}

/// The same in the other order: the mark is on the input that the board leads to.
pub fn board_over_strip<B: Bank>(
    bank: B,
    input: usize,
    other: usize,
    signal: B::Kind,
) -> (Option<B::Kind>, B)
    ensures back { result.0 ≡ read_back (B.points bank) input signal }
    ensures untouched { B.rest result.1 ≡ B.rest bank }
{
    let mut strip = Strip::over(bank);
    let _ = strip.mark(other, true);
    let mut board = PatchBoard::over(strip);
    let _ = board.exchange(input, other);
    let read = write_and_read(&mut board, input, signal);
    (read, board.into_bank().into_bank())
}

/// Reads a point of a bank through two strips with the same mark.
pub fn strip_over_strip<B: Bank + Drop>(bank: B, input: usize, index: usize) -> Option<B::Kind>
    ensures { result ≡ slice_get (B.points bank) index }
{
    mark_on_both(bank, input).read(index)
}

/// A strip over a patch board over the open bank.
pub fn through_open(slots: &mut [Plain], input: usize, other: usize, signal: Plain) -> Option<Plain>
    ensures { result ≡ read_back (take 768 slots.old) input signal }
{
    let (read, _bank) = strip_over_board(OpenBank::over(slots), input, other, signal);
    read
}

/// A patch board over a strip over the packed bank.
pub fn through_packed(
    bytes: &mut [u8],
    input: usize,
    other: usize,
    signal: Doubtful,
) -> Option<Doubtful>
    ensures { result ≡ read_back (unpacked bytes.old) input signal }
{
    let (read, _bank) = board_over_strip(PackedBank::over(bytes), input, other, signal);
    read
}

/// The lender of the slots learns what a bank over them has left there, beyond the points too.
pub fn lend_open(slots: &mut [Plain], index: usize, signal: Plain) -> Option<Plain>
    ensures back { result ≡ read_back (take 768 slots.old) index signal }
    ensures elsewhere { Elsewhere index (take 768 slots.old) (take 768 slots.new) }
    ensures untouched { drop 768 slots.new ≡ drop 768 slots.old }
{
    let mut bank = OpenBank::over(slots);
    write_and_read(&mut bank, index, signal)
}

/// The same of bytes.
// Kept apart, as the two above: each contract speaks of its own memory, and of a bank moved into a call the lender learns nothing.
pub fn lend_packed(bytes: &mut [u8], index: usize, signal: Doubtful) -> Option<Doubtful>
    ensures back { result ≡ read_back (unpacked bytes.old) index signal }
    ensures elsewhere { Elsewhere index (unpacked bytes.old) (unpacked bytes.new) }
    ensures untouched { drop 192 bytes.new ≡ drop 192 bytes.old }
{
    let mut packed = PackedBank::over(bytes);
    write_and_read(&mut packed, index, signal)
}
