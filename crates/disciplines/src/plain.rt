//! The plain discipline: one line, the claim, for each station, and nothing but the contest.
ghost use Rattle.std.specs.Prelude.{◌≡◌, ℕ, refl};
ghost use Rattle.steps.specs.Plain.{plain};
ghost use Rattle.runs.proofs.LinesApart.{plain_lines};
ghost use Rattle.runs.proofs.Tables.{plain_one};
ghost use Rattle.runs.proofs.PlainMoves.{plain_moves};
ghost use Rattle.runs.proofs.PlainRanges.{plain_range};

use crate::discipline::Discipline;
use sets::Set;
use steps::{Contest, Flag, MERGING, Part, PlainPlace, Record, Size};

/// The plain discipline: one line, the claim, for each station.
#[derive(Clone, Copy)]
pub struct Plain;

impl Discipline for Plain {
    const PER_STATION: usize = 1;

    ghost PER_STATION = { 1 };

    type Place = PlainPlace;

    ghost table = { plain };

    ghost per = { refl };

    ghost looks = { λ N p s k. refl };

    ghost goes = { λ N p s k high. refl };

    ghost apart = { plain_lines };

    ghost holder = { plain_one };

    ghost moving = { plain_moves };

    ghost ranged = { plain_range };

    fn number(size: Size, flag: Flag) -> Option<usize> {
        match flag.part {
            Part::Claim if flag.station < size.stations => Some(flag.station),
            _ => None,
        }
    }

    fn grant() -> u8 {
        MERGING
    }

    fn start(size: Size, s: Record) -> Record {
        Record {
            place: Contest::RaiseClaim.label(),
            left: Set::empty(),
            copy: Set::empty(),
            ..s
        }
    }
}
