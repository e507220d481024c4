//! Instructions: exactly what a line of a listing can say.
use points::Point;

/// What an instruction works on.
// No `Option<Point>`: `TRUE` is an operand, and `None` says that a line shows none.
#[derive(Clone, Copy)]
pub enum Operand {
    /// `TRUE`: always on.
    True,
    At(Point),
}

/// One instruction.
#[derive(Clone, Copy)]
pub enum Instruction {
    /// `LD`
    Load(Operand),
    /// `LDN`
    LoadNot(Operand),
    /// `AND`
    And(Operand),
    /// `ANDN`
    AndNot(Operand),
    /// `OR`
    Or(Operand),
    /// `ORN`
    OrNot(Operand),
    /// `AND(`
    AndOpen,
    /// `OR(`
    OrOpen,
    /// `)`
    Close,
    /// `ST`
    Store(Operand),
    /// `STN`
    StoreNot(Operand),
    /// `S`
    Set(Operand),
    /// `R`
    Reset(Operand),
}
