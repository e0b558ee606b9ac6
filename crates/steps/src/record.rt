//! What a station keeps from step to step.
ghost use Rattle.std.specs.Prelude.{◌≡◌};
ghost use Rattle.steps.specs.Rows.{to_number, new_record, failed};

use crate::places::{FAILED, IDLE};
use sets::Set;

/// A station's record: its private variables.
#[derive(Clone, Copy, PartialEq, Eq, Debug)]
pub struct Record {
    /// Where the station stands (the program label), as a plain number: the rules say that a record keeps the number.
    pub place: u8,
    /// Which of its two turn lines the station uses: `false` is side 0, `true` is side 1 (a bit, as in `Part::Turn`).
    pub side: bool,
    /// The station or turn number that it waits for, or gave way to.
    pub kept: usize,
    /// What is still to be looked at.
    pub left: Set,
    /// The turn numbers that were found high.
    pub copy: Set,
}

impl Record {
    /// The record of a station that was never started.
    // No `Default`: a derived one would stand at 0, and one by hand is this function in more lines.
    pub fn new() -> Self
        ensures { result ≡ new_record }
    {
        Record {
            place: IDLE,
            side: false,
            kept: 0,
            left: Set::empty(),
            copy: Set::empty(),
        }
    }

    /// The record of a station that has just failed.
    pub fn failed() -> Self
        ensures { result ≡ failed }
    {
        Record::new().to(FAILED)
    }

    /// The same record at another place.
    pub fn to(self, place: u8) -> Self
        ensures { result ≡ to_number place self }
    {
        Record { place, ..self }
    }
}
