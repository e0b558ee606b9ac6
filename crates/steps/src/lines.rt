//! Lines by their names. A step never speaks of a line's number on the board.

/// The kinds of line that a station may have.
#[derive(Clone, Copy, PartialEq, Eq, Debug)]
pub enum Part {
    /// High while the station is in the doorway.
    Door,
    /// High while the station contends for the merge.
    Claim,
    /// The turn line of a side: `false` is side 0, `true` is side 1. (A bit, since `!` changes sides, and a turn number ends in it.)
    Turn(bool),
}

/// A line by its name: one part of one station. On the board it is a safe register with one writer.
#[derive(Clone, Copy, PartialEq, Eq, Debug)]
pub struct Flag {
    pub station: usize,
    pub part: Part,
}
