//! The rows of the plain discipline: one line, the claim, for each station, and nothing but the contest.
ghost use Rattle.std.specs.Prelude.{◌≡◌, ℕ, Bool};
ghost use Rattle.steps.specs.Plain.{label, view, looks, goes};
ghost use Rattle.steps.specs.Back.{plain_back};

use crate::contest::Contest;
use crate::go::Go;
use crate::lines::{Flag, Part};
use crate::place::Place;
use crate::places::{FAILED, IDLE, MERGING};
use crate::step::Step;

/// The places of the plain discipline.
#[derive(Clone, Copy, PartialEq, Eq, Debug)]
pub enum PlainPlace {
    /// 21: not started.
    Idle,
    /// 28 to 33 and 38.
    Contest(Contest),
    /// 37: on the merge.
    Merging,
    /// 39: failed; the claim is lowered to recover.
    Failed,
}

impl Place for PlainPlace {
    ghost numbered = { label };

    ghost viewed = { view };

    ghost reads = { λ x N p s k. looks x s k };

    ghost does = { goes };

    ghost back = { plain_back };

    // By hand: a case holds the contest's place, so the enum cannot give each case its number.
    fn label(self) -> u8 {
        match self {
            PlainPlace::Idle => IDLE,
            PlainPlace::Contest(contest) => contest.label(),
            PlainPlace::Merging => MERGING,
            PlainPlace::Failed => FAILED,
        }
    }

    #[tactic(auto, unfolding(crate::specs::Plain::view))]
    fn at(number: u8) -> Self {
        match number {
            37 => PlainPlace::Merging,
            39 => PlainPlace::Failed,
            _ => Contest::at(number).map_or(PlainPlace::Idle, PlainPlace::Contest),
        }
    }

    #[inline(always)]
    fn look(self, step: Step) -> Option<Flag> {
        match self {
            PlainPlace::Contest(contest) => contest.look(step),
            _ => None,
        }
    }

    #[inline(always)]
    fn go(self, step: Step, high: bool) -> Go {
        match self {
            PlainPlace::Idle => Go::Idle,
            PlainPlace::Contest(contest) => contest.go(MERGING, step, high),
            PlainPlace::Merging => Go::MustLeave,
            PlainPlace::Failed => Go::Settles(Part::Claim, false, step.rec.to(IDLE)),
        }
    }
}
