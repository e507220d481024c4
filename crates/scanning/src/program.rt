//! The scan of a program.
ghost use Rattle.std.specs.Prelude.{◌≡◌, ◌<◌, ◌≤◌, List, length, MatchResult, OnOk};
ghost use Rattle.programs.specs.Programs.{held};
ghost use Rattle.wiring.specs.Circuit.{Circuit};
ghost use Rattle.scanning.specs.ByPaths.{ByPaths};
ghost use Rattle.scanning.specs.Listings.{Listings, named};
ghost use Rattle.scanning.specs.Machine.{scanned};
ghost use Rattle.scanning.specs.Refusals.{KeptUnnamed};

use super::brackets::Brackets;
use super::engine::Engine;
use super::fault::ScanFault;
use banks::Bank;
use programs::Program;

/// Scans a program once, over at least 15 working signals of the caller's, which hold any signals afterwards.
///
/// With fewer it is refused, and nothing is altered.
pub fn scan<B: Bank>(program: &Program, work: &mut [B::Kind], bank: &mut B) -> Result<(), ScanFault>
    ensures test { MatchResult result (λ _. 15 ≤ length work.old) (λ _. (length work.old < 15) × (work.new ≡ work.old) × (bank.new ≡ bank.old)) }
    ensures after { OnOk result (B.points bank.new ≡ scanned B.Kind.Signal.kind (held program.now) (B.points bank.old)) }
    ensures paths { OnOk result ((cs : List Circuit) → Listings cs (held program.now) → ByPaths B.Kind.Signal.kind cs (B.points bank.old) (B.points bank.new)) }
    ensures same { OnOk result (KeptUnnamed (named (held program.now)) (B.points bank.old) (B.points bank.new)) }
    ensures untouched { B.rest bank.new ≡ B.rest bank.old }
{
    if work.len() < 15 {
        return Err(ScanFault::FewSignals);
    }
    let mut brackets = Brackets::over(work);
    Engine::over(&mut brackets).run(program.words(), bank);
    Ok(())
}
