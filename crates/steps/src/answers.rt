//! What a call on a junction is answered.
ghost use Rattle.std.specs.Prelude.{◌≡◌, Some};
ghost use Rattle.steps.specs.Answers.{outcome_number, refusal_number, answer_number, outcome_text, refusal_text};

use numbers::Numbered;
use std::error::Error;
use std::fmt;

/// How an accepted call went, with its number in a report.
#[derive(Clone, Copy, PartialEq, Eq, Debug)]
pub enum Outcome {
    /// It was done.
    Accepted = 0,
    /// The line read is high, and the station stays.
    Waits = 50,
    /// The station is not started.
    Idle = 51,
}

/// Why a call is refused, with its number in a report.
#[derive(Clone, Copy, PartialEq, Eq, Debug)]
pub enum Refusal {
    /// The junction has no station of that number.
    NoStation = 3,
    /// A start of a station that is not idle.
    NotIdle = 4,
    /// A go whose pick is not in the set.
    WrongPick = 5,
    /// A go of a station that is on the merge.
    MustLeave = 6,
    /// A stir of a station whose next go settles no line.
    NothingToSettle = 7,
    /// A fail of a station that has failed.
    HasFailed = 8,
    /// A take where the station is not on the merge, or its pass was taken.
    NoPass = 9,
    /// A leave with a pass of another name, or one that is not current.
    NotCurrent = 10,
    /// A void of a pass of another name, or one that is current.
    StillCurrent = 11,
    /// The limit of calls is reached.
    Limit = 12,
}

impl Numbered for Outcome {
    ghost numbered = { outcome_number };

    fn number(self) -> u8 {
        self as u8 // 0, 50 or 51
    }
}

impl Numbered for Refusal {
    ghost numbered = { refusal_number };

    fn number(self) -> u8 {
        self as u8 // 3 to 12
    }
}

/// The number of an answer.
pub fn answer_number(answer: Result<Outcome, Refusal>) -> u8
    ensures { result ≡ answer_number answer }
{
    answer.number()
}

impl fmt::Display for Outcome {
    ghost output = { λ outcome. Some (outcome_text outcome) };

    fn fmt<W: fmt::Write>(&self, f: &mut fmt::Formatter<W>) -> fmt::Result {
        f.write_str(match self {
            Outcome::Accepted => "accepted",
            Outcome::Waits => "waits",
            Outcome::Idle => "idle",
        })
    }
}

impl fmt::Display for Refusal {
    ghost output = { λ refusal. Some (refusal_text refusal) };

    fn fmt<W: fmt::Write>(&self, f: &mut fmt::Formatter<W>) -> fmt::Result {
        f.write_str(match self {
            Refusal::NoStation => "no station of that number",
            Refusal::NotIdle => "the station is not idle",
            Refusal::WrongPick => "the pick is not in the set",
            Refusal::MustLeave => "the station is on the merge",
            Refusal::NothingToSettle => "the next go settles no line",
            Refusal::HasFailed => "the station has failed",
            Refusal::NoPass => "the station has no pass to take",
            Refusal::NotCurrent => "the pass is not current",
            Refusal::StillCurrent => "the pass is still current",
            Refusal::Limit => "the limit of calls is reached",
        })
    }
}

impl Error for Refusal {}
