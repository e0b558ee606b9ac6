//! Passes.
ghost use Rattle.std.specs.Prelude.{◌≡◌, Bool};
ghost use Rattle.junction.specs.Stations.{is_since};

use crate::stations::Station;
use steps::MERGING;

/// Leave to use the merge (a token). It can be neither dropped nor copied: it ends by being handed in, with `leave` or `void`.
pub struct Pass {
    /// The name of the junction.
    pub(crate) name: u32,
    pub(crate) station: usize,
    /// How often the station had arrived on the merge.
    pub(crate) arrival: u64,
}

impl Pass {
    // Whether its station, which is this, stands on the merge since that arrival.
    pub(crate) fn is_current(&self, station: Station) -> bool
        ensures { result ≡ is_since self.now.arrival station }
    {
        station.rec.place == MERGING && self.arrival == station.arrivals
    }

    // A pass that was handed in ends. Only a pattern that names every field ends a token; one with `..` does not.
    pub(crate) fn end(self) {
        let Pass {
            name: _,
            station: _,
            arrival: _,
        } = self;
    }
}
