//! Contacts and coils as instructions.
ghost use Rattle.std.specs.Prelude.{◌≡◌};
ghost use Rattle.translation.specs.Spelling.{Spells, loading, anding, oring, coiling};

use instructions::{Instruction, Operand};
use wiring::{Action, Coil, Contact};

/// A contact with the operation that takes a signal as it is, or the one that takes its inverse; a wire is the operand
/// `TRUE`.
fn spelled<P: FnOnce(Operand) -> Instruction, I: FnOnce(Operand) -> Instruction>(
    contact: Contact,
    plain: P,
    inverted: I,
) -> Instruction
    requires plain { P.IsAlwaysCallable plain }
    requires inverted { I.IsAlwaysCallable inverted }
    ensures { Spells (P.post plain) (I.post inverted) contact result }
{
    match contact {
        Contact::Wire => plain(Operand::True),
        Contact::Open(point) => plain(Operand::At(point)),
        Contact::Closed(point) => inverted(Operand::At(point)),
    }
}

/// A contact that stands first.
pub(crate) fn load(contact: Contact) -> Instruction
    ensures { result ≡ loading contact }
{
    spelled(contact, Instruction::Load, Instruction::LoadNot)
}

/// A later contact of a series.
pub(crate) fn and(contact: Contact) -> Instruction
    ensures { result ≡ anding contact }
{
    spelled(contact, Instruction::And, Instruction::AndNot)
}

/// A later contact of a branch group.
pub(crate) fn or(contact: Contact) -> Instruction
    ensures { result ≡ oring contact }
{
    spelled(contact, Instruction::Or, Instruction::OrNot)
}

/// A coil as it acts on its point.
pub(crate) fn coil(coil: Coil) -> Instruction
    ensures { result ≡ coiling coil }
{
    let operand = Operand::At(coil.point);
    match coil.action {
        Action::Store => Instruction::Store(operand),
        Action::StoreNot => Instruction::StoreNot(operand),
        Action::Set => Instruction::Set(operand),
        Action::Reset => Instruction::Reset(operand),
    }
}
