//! The rows of the four-line discipline: a door, a claim and two turns for each station. First come, first served.
ghost use Rattle.std.specs.Prelude.{◌≡◌, ℕ, Bool};
ghost use Rattle.steps.specs.FourLine.{label, view, turn, looks, goes};
ghost use Rattle.steps.specs.Back.{four_back};

use crate::contest::Contest;
use crate::go::Go;
use crate::lines::{Flag, Part};
use crate::place::Place;
use crate::places::{FAILED, IDLE, MERGING};
use crate::record::Record;
use crate::step::Step;
use sets::Set;

/// The places of the four-line discipline.
#[derive(Clone, Copy, PartialEq, Eq, Debug)]
pub enum FourPlace {
    /// 21: not started.
    Idle,
    /// 22: the door is opened (raised); the doorway begins.
    OpenDoor,
    /// 23: all turn lines are read, and those found high are copied.
    CopyTurns,
    /// 24: the own turn is raised.
    RaiseTurn,
    /// 25: the door is closed (lowered); the doorway ends.
    CloseDoor,
    /// 26: the copied turns are gone through.
    PickTurn,
    /// 27: until the copied turn is low.
    AwaitTurn,
    /// 28 to 33 and 38.
    Contest(Contest),
    /// 34: the contest is won; the own turn is lowered and the side changes.
    LowerTurn,
    /// 35: all doors are gone through.
    PickDoor,
    /// 36: until the door is low.
    AwaitDoor,
    /// 37: on the merge.
    Merging,
    /// 39: failed; the door is lowered to recover.
    Failed,
    /// 40: the claim is lowered.
    ClearClaim,
    /// 41: the turn of side 0 is lowered.
    ClearTurn0,
    /// 42: the turn of side 1 is lowered.
    ClearTurn1,
    /// 43: all doors are gone through once more.
    RecheckDoor,
    /// 44: until the door is low.
    AwaitRecheckedDoor,
    /// 45: all turns are gone through.
    RecheckTurn,
    /// 46: until the turn is low.
    AwaitRecheckedTurn,
}

impl Place for FourPlace {
    ghost numbered = { label };

    ghost viewed = { view };

    ghost reads = { λ x N p s k. looks x s k };

    ghost does = { goes };

    ghost back = { four_back };

    // By hand: a case holds the contest's place, so the enum cannot give each case its number.
    fn label(self) -> u8 {
        match self {
            FourPlace::Idle => IDLE,
            FourPlace::OpenDoor => 22,
            FourPlace::CopyTurns => 23,
            FourPlace::RaiseTurn => 24,
            FourPlace::CloseDoor => 25,
            FourPlace::PickTurn => 26,
            FourPlace::AwaitTurn => 27,
            FourPlace::Contest(contest) => contest.label(),
            FourPlace::LowerTurn => 34,
            FourPlace::PickDoor => 35,
            FourPlace::AwaitDoor => 36,
            FourPlace::Merging => MERGING,
            FourPlace::Failed => FAILED,
            FourPlace::ClearClaim => 40,
            FourPlace::ClearTurn0 => 41,
            FourPlace::ClearTurn1 => 42,
            FourPlace::RecheckDoor => 43,
            FourPlace::AwaitRecheckedDoor => 44,
            FourPlace::RecheckTurn => 45,
            FourPlace::AwaitRecheckedTurn => 46,
        }
    }

    #[tactic(auto, unfolding(crate::specs::FourLine::view))]
    fn at(number: u8) -> Self {
        match number {
            22 => FourPlace::OpenDoor,
            23 => FourPlace::CopyTurns,
            24 => FourPlace::RaiseTurn,
            25 => FourPlace::CloseDoor,
            26 => FourPlace::PickTurn,
            27 => FourPlace::AwaitTurn,
            34 => FourPlace::LowerTurn,
            35 => FourPlace::PickDoor,
            36 => FourPlace::AwaitDoor,
            37 => FourPlace::Merging,
            39 => FourPlace::Failed,
            40 => FourPlace::ClearClaim,
            41 => FourPlace::ClearTurn0,
            42 => FourPlace::ClearTurn1,
            43 => FourPlace::RecheckDoor,
            44 => FourPlace::AwaitRecheckedDoor,
            45 => FourPlace::RecheckTurn,
            46 => FourPlace::AwaitRecheckedTurn,
            _ => Contest::at(number).map_or(FourPlace::Idle, FourPlace::Contest),
        }
    }

    #[inline(always)]
    fn look(self, step: Step) -> Option<Flag> {
        let Step { rec: s, pick, .. } = step;
        match self {
            FourPlace::CopyTurns => s.left.contains(pick).then_some(turn(pick)),
            FourPlace::AwaitTurn | FourPlace::AwaitRecheckedTurn => Some(turn(s.kept)),
            FourPlace::Contest(contest) => contest.look(step),
            FourPlace::AwaitDoor | FourPlace::AwaitRecheckedDoor => Some(Flag {
                station: s.kept,
                part: Part::Door,
            }),
            _ => None,
        }
    }

    // A match over places, each row with its guards, as the rules have it; so rows that differ in a place stand side by side.
    #[inline(always)]
    fn go(self, step: Step, high: bool) -> Go {
        let Step {
            size,
            rec: s,
            pick,
            ..
        } = step;
        match self {
            FourPlace::Idle => Go::Idle,
            FourPlace::OpenDoor => {
                Go::Settles(Part::Door, true, s.to(FourPlace::CopyTurns.label()))
            }
            FourPlace::CopyTurns if s.left.is_empty() => {
                Go::Moves(s.to(FourPlace::RaiseTurn.label()))
            }
            FourPlace::CopyTurns if !s.left.contains(pick) => Go::WrongPick,
            FourPlace::CopyTurns if high => Go::Moves(Record {
                left: s.left.remove(pick),
                copy: s.copy.insert(pick),
                ..s
            }),
            FourPlace::CopyTurns => Go::Moves(Record {
                left: s.left.remove(pick),
                ..s
            }),
            FourPlace::RaiseTurn => Go::Settles(
                Part::Turn(s.side),
                true,
                s.to(FourPlace::CloseDoor.label()),
            ),
            FourPlace::CloseDoor => {
                Go::Settles(Part::Door, false, s.to(FourPlace::PickTurn.label()))
            }
            FourPlace::PickTurn if s.copy.is_empty() => {
                Go::Moves(s.to(Contest::RaiseClaim.label()))
            }
            FourPlace::PickTurn if !s.copy.contains(pick) => Go::WrongPick,
            FourPlace::PickTurn => Go::Moves(Record {
                place: FourPlace::AwaitTurn.label(),
                kept: pick,
                ..s
            }),
            FourPlace::AwaitTurn if high => Go::Waits,
            FourPlace::AwaitTurn => Go::Moves(Record {
                place: FourPlace::PickTurn.label(),
                copy: s.copy.remove(s.kept),
                ..s
            }),
            FourPlace::Contest(contest) => contest.go(FourPlace::LowerTurn.label(), step, high),
            FourPlace::LowerTurn => Go::Settles(
                Part::Turn(s.side),
                false,
                Record {
                    place: FourPlace::PickDoor.label(),
                    side: !s.side,
                    left: Set::below(size.stations),
                    ..s
                },
            ),
            FourPlace::PickDoor if s.left.is_empty() => Go::Moves(s.to(MERGING)),
            FourPlace::PickDoor if !s.left.contains(pick) => Go::WrongPick,
            FourPlace::PickDoor => Go::Moves(Record {
                place: FourPlace::AwaitDoor.label(),
                kept: pick,
                ..s
            }),
            FourPlace::AwaitDoor if high => Go::Waits,
            FourPlace::AwaitDoor => Go::Moves(Record {
                place: FourPlace::PickDoor.label(),
                left: s.left.remove(s.kept),
                ..s
            }),
            FourPlace::Merging => Go::MustLeave,
            FourPlace::Failed => {
                Go::Settles(Part::Door, false, s.to(FourPlace::ClearClaim.label()))
            }
            FourPlace::ClearClaim => {
                Go::Settles(Part::Claim, false, s.to(FourPlace::ClearTurn0.label()))
            }
            FourPlace::ClearTurn0 => Go::Settles(
                Part::Turn(false),
                false,
                s.to(FourPlace::ClearTurn1.label()),
            ),
            FourPlace::ClearTurn1 => Go::Settles(
                Part::Turn(true),
                false,
                Record {
                    place: FourPlace::RecheckDoor.label(),
                    left: Set::below(size.stations),
                    ..s
                },
            ),
            FourPlace::RecheckDoor if s.left.is_empty() => Go::Moves(Record {
                place: FourPlace::RecheckTurn.label(),
                left: Set::below(2 * size.stations),
                ..s
            }),
            FourPlace::RecheckDoor if !s.left.contains(pick) => Go::WrongPick,
            FourPlace::RecheckDoor => Go::Moves(Record {
                place: FourPlace::AwaitRecheckedDoor.label(),
                kept: pick,
                ..s
            }),
            FourPlace::AwaitRecheckedDoor if high => Go::Waits,
            FourPlace::AwaitRecheckedDoor => Go::Moves(Record {
                place: FourPlace::RecheckDoor.label(),
                left: s.left.remove(s.kept),
                ..s
            }),
            FourPlace::RecheckTurn if s.left.is_empty() => Go::Moves(s.to(IDLE)),
            FourPlace::RecheckTurn if !s.left.contains(pick) => Go::WrongPick,
            FourPlace::RecheckTurn => Go::Moves(Record {
                place: FourPlace::AwaitRecheckedTurn.label(),
                kept: pick,
                ..s
            }),
            FourPlace::AwaitRecheckedTurn if high => Go::Waits,
            FourPlace::AwaitRecheckedTurn => Go::Moves(Record {
                place: FourPlace::RecheckTurn.label(),
                left: s.left.remove(s.kept),
                ..s
            }),
        }
    }
}

// The line of turn number k = 2q + e: of station q, side e.
#[tactic(auto, unfolding(crate::specs::FourLine::odd))]
fn turn(k: usize) -> Flag
    ensures { result ≡ turn k }
{
    Flag {
        station: k / 2,
        part: Part::Turn(k % 2 == 1),
    }
}
