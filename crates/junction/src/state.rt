//! What a junction holds.
use crate::counts::Counts;
use crate::stations::Stations;
use steps::Size;

/// Stations that share one merge, by a discipline, over a board.
#[derive(Drop)]
pub struct Junction<D, B> {
    pub(crate) discipline: D,
    pub(crate) size: Size,
    pub(crate) name: u32,
    pub(crate) stations: Stations,
    pub(crate) counts: Counts,
    pub(crate) board: B,
}
