//! How to use the program.
use std::io;
use std::io::Write;

const HELP: &str = "startline: ladder cards, listings and scripts of the signal mast

  startline < CARD              translate a card
  startline listing < LISTING   read a listing and write it back
  startline run < SCRIPT        perform a script of calls
  startline --help              print this

Of a card or a listing it prints `OK rungs words depth first` and the listing,
and ends with status 0; or, if the input is refused, `NO number rung bit` for a
card and `NO number line byte` for a listing, and ends with status 1.

A script has a command a line, its fields parted by one space, and most are
answered by a line. Numbers go up to 1000000, bytes are hexadecimal digits, and
`-` stands for no bytes or no cells. Signals are 0, 1 and, in the doubtful kind, ?.

  kind plain | doubtful         begins a script
  bank open CELLS               a bank of one signal a cell
  bank packed BYTES             a bank of four doubtful points a byte
  strip | patch                 lays a layer on the top; two at most
  mark LAYER INPUT 0|1          layers count from 0, the lowest first
  exchange LAYER INPUT INPUT
  count | look INDEX | put INDEX SIGNAL | memory
  make                          makes the controller; what follows calls it
  card BYTES | listing BYTES    ok rungs words depth first
                                no number card rung bit
                                no number listing line byte
  set INPUT SIGNAL | read INDEX | scan WORKING | dump
  writelisting SIZE | writestatus SIZE
                                ok length BUFFER, or no 16 BUFFER

A refusal in a script is an answer. A line that is no command, or stands where
it may not, ends the run with status 1 and is named on standard error.
";

pub fn print_help(rt: &HostRuntime) -> io::Result<()> {
    rt.stdout().write_all(HELP.as_bytes())
}
