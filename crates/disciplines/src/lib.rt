//! Disciplines of the merge: what the junction asks of one, and the two that there are.
#![tactic(auto)]

mod discipline;
mod four_line;
mod plain;

pub use discipline::{Discipline, FairDiscipline};
pub use four_line::FourLine;
pub use plain::Plain;

// What callers of a discipline name too.
pub use steps::{
    Contest, FAILED, Flag, FourPlace, Go, IDLE, MERGING, Numbered, Outcome, Part, Place,
    PlainPlace, RELEASE, Record, Refusal, Size, Step, answer_number,
};
