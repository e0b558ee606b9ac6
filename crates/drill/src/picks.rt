//! Goes with no pick in mind. A refused go changes nothing, so a caller may try picks until one is taken.
ghost use Rattle.std.specs.Prelude.{◌≡◌};
ghost use Rattle.drill.specs.Picks.{step_answers, step_leaves};

use boards::Board;
use disciplines::Discipline;
use junction::Junction;
use steps::{Outcome, Refusal};

/// The turn numbers of three stations, which are the most that a pick is of.
const PICKS: usize = 6;

// One step of a station: a go with the first pick that is not refused as a pick.
#[tactic(auto, using(crate::proofs::Picking::picking))]
pub(crate) fn step<D: Discipline, B: Board>(
    j: &mut Junction<D, B>,
    p: usize,
) -> Result<Outcome, Refusal>
    ensures answers { result ≡ step_answers D.table B.meaning j.old p 0 PICKS }
    ensures leaves { j.new ≡ step_leaves D.table B.meaning j.old p 0 PICKS }
{
    for pick in 0..PICKS {
        let answer = j.go(p, pick);
        if answer != Err(Refusal::WrongPick) {
            return answer;
        }
    }
    Err(Refusal::WrongPick)
}
