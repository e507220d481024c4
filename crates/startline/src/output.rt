//! What the program prints of a controller, or of a refusal.
use banks::Bank;
use controller::{Controller, InstallFault};
use instructions::ShortBuffer;
use std::io;
use std::io::Write;

/// The longest listing: 4,096 lines of at most 11 bytes.
const LISTING_BYTES: usize = 45056;

/// Room for every status line and refusal line.
const LINE_BYTES: usize = 96;

/// Prints the front of a buffer that a text was written into.
fn print_front(
    rt: &HostRuntime,
    written: Result<usize, ShortBuffer>,
    buffer: &[u8],
) -> io::Result<()> {
    match written.ok().and_then(|length| buffer.get(..length)) {
        Some(text) => rt.stdout().write_all(text),
        None => Err(io::Error::from(io::ErrorKind::InvalidData)),
    }
}

/// Prints the status line and the listing.
pub fn print_controller<B: Bank>(rt: &HostRuntime, controller: &Controller<B>) -> io::Result<()> {
    let mut line = [0u8; LINE_BYTES];
    let written = controller.write_status(&mut line);
    print_front(rt, written, &line)?;
    let mut listing = vec![in rt.alloc(); 0u8; LISTING_BYTES]?;
    let written = controller.write_listing(&mut listing);
    print_front(rt, written, listing.as_slice())
}

/// Prints the refusal line.
pub fn print_refusal(rt: &HostRuntime, fault: InstallFault) -> io::Result<()> {
    let mut line = [0u8; LINE_BYTES];
    let written = fault.write_line(&mut line);
    print_front(rt, written, &line)
}
