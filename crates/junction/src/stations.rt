//! The table of the stations.
ghost use Rattle.std.specs.Prelude.{◌≡◌, ◌<◌};
ghost use Rattle.junction.specs.Stations.{station_of, with_station, arrived, new_station};

use steps::{MERGING, Record};

/// The most stations that share a merge.
pub(crate) const MOST_STATIONS: usize = 16;

/// A station: its record, how often it has arrived on the merge, and whether the pass of the last arrival was taken.
#[derive(Clone, Copy)]
pub struct Station {
    pub(crate) rec: Record,
    pub(crate) arrivals: u64,
    // A flag beside the count, which goes on whether or not a pass was taken.
    pub(crate) taken: bool,
}

/// The slot of a station: its number, for which the table has room.
#[derive(Clone, Copy)]
pub(crate) struct Slot {
    pub(crate) station: usize,
    ghost below: { station < 16 },
}

/// Room for sixteen stations: an array, since the chip has no heap.
#[derive(Drop)]
pub struct Stations {
    pub(crate) at: [Station; MOST_STATIONS],
}

impl Station {
    // No `Default`: a derived one would stand at 0, and one by hand is this function in more lines.
    pub(crate) fn new() -> Self
        ensures { result ≡ new_station }
    {
        Station {
            rec: Record::new(),
            arrivals: 0,
            taken: false,
        }
    }

    // After a go: an arrival on the merge is counted, and its pass is yet to be taken.
    pub(crate) fn arrive(self, rec: Record) -> Self
        ensures { result ≡ arrived rec self }
    {
        let merging = rec.place == MERGING;
        Station {
            rec,
            arrivals: self.arrivals.saturating_add(merging.into()),
            taken: self.taken && !merging,
        }
    }

    // Changes the station that was lent. A station is lent and changed in place, by a rule of the project; a method that hands
    // out `&mut` to an element of an array field gets no proof of what the table then holds.
    fn renew(&mut self, next: Station)
        ensures { self.new ≡ next }
    {
        *self = next;
    }
}

impl Stations {
    pub(crate) fn get(&self, slot: Slot) -> Station
        ensures { result ≡ station_of self.now slot.station }
    {
        self.at[slot.station]
    }

    // Lends one station, and has it changed there.
    pub(crate) fn put(&mut self, slot: Slot, next: Station)
        ensures { self.new ≡ with_station self.old slot.station next }
    {
        self.at[slot.station].renew(next);
    }
}
