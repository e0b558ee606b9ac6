//! What a step of a station may be.
use crate::lines::Part;
use crate::record::Record;

/// What a go does.
#[derive(Clone, Copy, PartialEq, Eq, Debug)]
pub enum Go {
    /// The station is not started.
    Idle,
    /// The line read is high, and the station stays.
    Waits,
    /// The pick is not in the set.
    WrongPick,
    /// The station is on the merge, and goes on by a leave.
    MustLeave,
    /// The record changes.
    Moves(Record),
    /// An own line is settled, and the record changes.
    Settles(Part, bool, Record),
}
