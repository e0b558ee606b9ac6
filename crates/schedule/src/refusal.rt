//! Refusals and their numbers.
ghost use Rattle.std.specs.Prelude.{◌≡◌, Some};
ghost use Rattle.schedule.specs.Refusals.{number_of, index_of, text_of};

use numbers::Numbered;
use std::error::Error;
use std::fmt;

/// Why bytes are no schedule.
#[derive(Clone, Copy, PartialEq, Eq, Debug)]
pub enum Refusal {
    TooLong,
    NoHeader,
    UnknownDiscipline,
    TooManyEvents,
    EventsCutShort,
    BadStationCount,
    UnknownEvent { index: usize },
}

impl Numbered for Refusal {
    ghost numbered = { number_of };

    // A match, since a variant that holds an index rules discriminants out.
    fn number(self) -> u8 {
        match self {
            Refusal::TooLong => 25,
            Refusal::NoHeader => 20,
            Refusal::UnknownDiscipline => 21,
            Refusal::TooManyEvents => 22,
            Refusal::EventsCutShort => 23,
            Refusal::BadStationCount => 1,
            Refusal::UnknownEvent { .. } => 24,
        }
    }
}

impl Refusal {
    /// The index that is printed: that of the first unknown letter, else 0.
    pub fn index(self) -> usize
        ensures { result ≡ index_of self }
    {
        match self {
            Refusal::UnknownEvent { index } => index,
            _ => 0,
        }
    }
}

impl fmt::Display for Refusal {
    ghost output = { λ refusal. Some (text_of refusal) };

    fn fmt<W: fmt::Write>(&self, f: &mut fmt::Formatter<W>) -> fmt::Result {
        match self {
            Refusal::TooLong => write!(f, "over 60,000 bytes"),
            Refusal::NoHeader => write!(f, "under 4 bytes"),
            Refusal::UnknownDiscipline => write!(f, "the discipline letter is neither A nor B"),
            Refusal::TooManyEvents => write!(f, "more than 16,384 events"),
            Refusal::EventsCutShort => write!(f, "fewer bytes than the events need"),
            Refusal::BadStationCount => write!(f, "no station, or more than 16"),
            Refusal::UnknownEvent { index } => write!(f, "unknown event letter at index {index}"),
        }
    }
}

impl Error for Refusal {}
