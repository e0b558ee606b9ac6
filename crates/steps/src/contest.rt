//! The inner contest, which both disciplines share: a station claims the merge, gives way to those below it and
//! waits for those above it (the one-line algorithm of Burns and Lamport).
ghost use Rattle.std.specs.Prelude.{◌≡◌, Bool};
ghost use Rattle.steps.specs.Contest.{label, place_of, looks, goes};

use crate::go::Go;
use crate::lines::{Flag, Part};
use crate::places::IDLE;
use crate::record::Record;
use crate::step::Step;
use sets::Set;

/// The places of the contest, with their numbers.
// A go is a match over places, each row with its guards, as the rules have it; so rows that differ in a place stand side by side.
#[derive(Clone, Copy, PartialEq, Eq, Debug)]
pub enum Contest {
    /// The claim is raised.
    RaiseClaim = 28,
    /// The stations below are looked at; one that claims has the way.
    LookBelow = 29,
    /// The claim is lowered, to give way.
    LowerClaim = 30,
    /// Until the station that was given way claims no more.
    AwaitLower = 31,
    /// The stations above are gone through.
    PickAbove = 32,
    /// Until the station above claims no more.
    AwaitAbove = 33,
    /// The claim is lowered after the merge.
    Release = 38,
}

impl Contest {
    /// The number of the place.
    pub fn label(self) -> u8
        ensures { result ≡ label self }
    {
        self as u8
    }

    /// The place of a number, if it is one of the contest.
    // No `TryFrom`: both callers go on with the idle place, and an error type would be read by nobody.
    pub fn at(number: u8) -> Option<Self>
        ensures { result ≡ place_of number }
    {
        Some(match number {
            28 => Contest::RaiseClaim,
            29 => Contest::LookBelow,
            30 => Contest::LowerClaim,
            31 => Contest::AwaitLower,
            32 => Contest::PickAbove,
            33 => Contest::AwaitAbove,
            38 => Contest::Release,
            _ => return None,
        })
    }

    /// The line that a go reads.
    #[inline(always)]
    pub fn look(self, step: Step) -> Option<Flag>
        ensures { result ≡ looks self step.rec step.pick }
    {
        let Step { rec: s, pick, .. } = step;
        match self {
            Contest::LookBelow => s.left.contains(pick).then_some(Flag {
                station: pick,
                part: Part::Claim,
            }),
            Contest::AwaitLower | Contest::AwaitAbove => Some(Flag {
                station: s.kept,
                part: Part::Claim,
            }),
            _ => None,
        }
    }

    /// What a go does; `won` is the place of a station that has won the contest, as the number that a record keeps.
    #[inline(always)]
    pub fn go(self, won: u8, step: Step, high: bool) -> Go
        ensures { result ≡ goes self won step.size.stations step.station step.rec step.pick high }
    {
        let Step {
            size,
            station: p,
            rec: s,
            pick,
        } = step;
        match self {
            Contest::RaiseClaim => Go::Settles(
                Part::Claim,
                true,
                Record {
                    place: Contest::LookBelow.label(),
                    left: Set::below(p),
                    ..s
                },
            ),
            Contest::LookBelow if s.left.is_empty() => Go::Moves(Record {
                place: Contest::PickAbove.label(),
                left: Set::above(size.stations, p),
                ..s
            }),
            Contest::LookBelow if !s.left.contains(pick) => Go::WrongPick,
            Contest::LookBelow if high => Go::Moves(Record {
                place: Contest::LowerClaim.label(),
                kept: pick,
                ..s
            }),
            Contest::LookBelow => Go::Moves(Record {
                left: s.left.remove(pick),
                ..s
            }),
            Contest::LowerClaim => {
                Go::Settles(Part::Claim, false, s.to(Contest::AwaitLower.label()))
            }
            Contest::AwaitLower if high => Go::Waits,
            Contest::AwaitLower => Go::Moves(Record {
                place: Contest::RaiseClaim.label(),
                left: Set::empty(),
                ..s
            }),
            Contest::PickAbove if s.left.is_empty() => Go::Moves(s.to(won)),
            Contest::PickAbove if !s.left.contains(pick) => Go::WrongPick,
            Contest::PickAbove => Go::Moves(Record {
                place: Contest::AwaitAbove.label(),
                kept: pick,
                ..s
            }),
            Contest::AwaitAbove if high => Go::Waits,
            Contest::AwaitAbove => Go::Moves(Record {
                place: Contest::PickAbove.label(),
                left: s.left.remove(s.kept),
                ..s
            }),
            Contest::Release => Go::Settles(Part::Claim, false, s.to(IDLE)),
        }
    }
}
