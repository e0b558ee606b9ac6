//! What is noted of a play, in trails.
use schedule::Event;

/// A hold that was granted, and the rounds by then.
#[derive(Clone, Copy, Default)]
pub struct GrantEntry {
    pub station: u8,
    pub rounds: u64,
}

/// An event that was refused, as read, with its index and the number of the refusal.
#[derive(Clone, Copy)]
pub struct RefusalEntry {
    pub event: Event,
    pub index: usize,
    /// As the number that the report shows: the rules have it noted so.
    pub number: u8,
}
