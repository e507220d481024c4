//! How deep the brackets of words go.
ghost use Rattle.std.specs.Prelude.{◌≡◌, min};
ghost use Rattle.instructions.specs.Depth.{opened_if, depth as deepest_in};

use super::instruction::Instruction;

/// The greatest number of brackets open at once in the words.
pub fn depth(words: &[u16]) -> usize
    ensures { result ≡ deepest_in words.now }
{
    // Kept as a loop: two values change at each turn, and a fold over a pair is no plainer.
    let mut open = 0;
    let mut deepest = 0;
    for word in words {
        open = brackets_after(open, Instruction::try_from(*word).ok());
        deepest = open.max(deepest);
    }
    deepest
}

/// How many brackets are open after an instruction, where so many were open before it, as far as that can be counted.
/// A word that stands for no instruction opens and closes nothing.
pub fn brackets_after(open: usize, instruction: Option<Instruction>) -> usize
    ensures { result ≡ min (opened_if «open» instruction) usize.MAX }
{
    match instruction {
        Some(Instruction::AndOpen | Instruction::OrOpen) => open.saturating_add(1),
        Some(Instruction::Close) => open.saturating_sub(1),
        _ => open,
    }
}
