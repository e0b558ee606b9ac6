//! Worked runs of the merge unit: what the calls promise, followed through and proved for every case.
#![tactic(auto)]

ghost use Rattle.std.specs.Prelude.{◌≡◌};
ghost use Rattle.worked.specs.Worked.{WorkedRuns};

/// How many worked runs there are. Its promise is that each of them goes as it is told, whichever case is taken.
pub fn worked_runs_stand() -> u8
    ensures counted { result ≡ 12 }
    ensures stand { WorkedRuns }
{
    12
}
