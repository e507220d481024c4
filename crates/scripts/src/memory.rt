//! The memory that is lent to a bank, as scripts show it.
use crate::answers::write_bytes;
use crate::fault::Cause;
use crate::notation::Notation;
use banks::{OpenBank, PackedBank};

/// A bank that shows the memory that it was lent, cells beyond its points too.
pub trait Memory {
    fn write_memory(&self, out: &mut String) -> Result<(), Cause>;
}

impl<'a, S: Notation> Memory for OpenBank<'a, S> {
    fn write_memory(&self, out: &mut String) -> Result<(), Cause> {
        S::write_list(self.slots(), out)
    }
}

impl<'a> Memory for PackedBank<'a> {
    fn write_memory(&self, out: &mut String) -> Result<(), Cause> {
        write_bytes(self.bytes(), out)
    }
}
