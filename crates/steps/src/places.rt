//! The places that every discipline has, as numbers, since a record keeps its place as one. They stand in the definitions of the rows, too.

/// Not started.
pub const IDLE: u8 = 21;

/// On the merge: the critical section.
pub const MERGING: u8 = 37;

/// Left the merge; the claim is still to be lowered.
pub const RELEASE: u8 = 38;

/// Failed, and not yet recovering.
pub const FAILED: u8 = 39;
