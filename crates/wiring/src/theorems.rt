//! The theorems about circuits and their wirings, each the contract of a function that does nothing.
ghost use Rattle.wiring.specs.Theorems.{OneText, PathsStand, ValueStands, OneJoining, OnByAPath, WorkedCircuits};

/// Any two wirings that read a circuit have the same text.
pub fn one_text()
    ensures { OneText }
{}

/// The ways through a wiring that reads a circuit are all the paths of the circuit, each once.
pub fn paths_stand()
    ensures { PathsStand }
{}

/// For every kind of signal with the laws, a wiring passes on the parallel joining over its paths of the
/// series joining along each; and over all paths of a circuit that joining is the same however they are listed.
pub fn value_stands<S>()
    ensures value { ValueStands S }
    ensures joining { OneJoining S }
{}

/// In a kind of two signals whose parallel joining of on and on is on, the joining over paths is on exactly if
/// some path has every link on.
pub fn on_by_a_path<S>()
    ensures { OnByAPath S }
{}

/// Two worked circuits: how the one reads, and that no wiring reads the other.
pub fn worked_circuits()
    ensures { WorkedCircuits }
{}
