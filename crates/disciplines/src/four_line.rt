//! The four-line discipline: a door, a claim and two turns for each station. First come, first served.
ghost use Rattle.std.specs.Prelude.{◌≡◌, ℕ, refl};
ghost use Rattle.steps.specs.FourLine.{four_line, offset};
ghost use Rattle.runs.proofs.LinesApart.{four_lines};
ghost use Rattle.runs.proofs.Tables.{four_one};
ghost use Rattle.runs.proofs.Four.Moves.{four_moves};
ghost use Rattle.runs.proofs.Four.Order.{four_order};
ghost use Rattle.runs.proofs.Four.Ranges.{four_range};

use crate::discipline::{Discipline, FairDiscipline};
use sets::Set;
use steps::{Flag, FourPlace, MERGING, Part, Place, Record, Size};

/// The four-line discipline: a door, a claim and two turns for each station.
#[derive(Clone, Copy)]
pub struct FourLine;

impl Discipline for FourLine {
    const PER_STATION: usize = 4;

    ghost PER_STATION = { 4 };

    type Place = FourPlace;

    ghost table = { four_line };

    ghost per = { refl };

    ghost looks = { λ N p s k. refl };

    ghost goes = { λ N p s k high. refl };

    ghost apart = { four_lines };

    ghost holder = { four_one };

    ghost moving = { four_moves };

    ghost ranged = { four_range };

    fn number(size: Size, flag: Flag) -> Option<usize> {
        (flag.station < size.stations).then(|| Self::PER_STATION * flag.station + offset(flag.part))
    }

    fn grant() -> u8 {
        FourPlace::LowerTurn.label()
    }

    fn start(size: Size, s: Record) -> Record {
        Record {
            place: FourPlace::OpenDoor.label(),
            left: Set::below(2 * size.stations),
            copy: Set::empty(),
            ..s
        }
    }
}

impl FairDiscipline for FourLine {
    ghost fair = { four_order };

    fn ahead_places() -> (u8, u8) {
        (FourPlace::CloseDoor.label(), MERGING)
    }
}

// Where a part stands among the four lines of its station. (A turn line holds its side, so a part has no number of its own.)
fn offset(part: Part) -> usize
    ensures { result ≡ offset part }
{
    match part {
        Part::Door => 0,
        Part::Claim => 1,
        Part::Turn(false) => 2,
        Part::Turn(true) => 3,
    }
}
