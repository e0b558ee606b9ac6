//! A step that is asked for.
use crate::record::Record;
use crate::size::Size;

/// A go that is asked for: of which station of how many, with its record and its pick.
// What takes a step is inlined, a hint that changes no proof: a step that is passed whole is written in small pieces and read back in
// large ones, for which the processor waits, and a call then took up to twice its time.
#[derive(Clone, Copy, PartialEq, Eq, Debug)]
pub struct Step {
    pub size: Size,
    pub station: usize,
    pub rec: Record,
    /// The member of its set that the station is to deal with next.
    pub pick: usize,
}
