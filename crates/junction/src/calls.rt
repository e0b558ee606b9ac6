//! The calls by which stations step: start, go, stir and fail.
ghost use Rattle.std.specs.Prelude.{◌≡◌, ℕ, Bool, true, false, ◌==◌};
ghost use Rattle.runs.specs.Runs.{holds};
ghost use Rattle.junction.specs.Stations.{station_of, arrived};
ghost use Rattle.junction.specs.Calls.{SlotOf, unknown, refused_first, asked, counting, stepped, answered, acted, start_answers, start_leaves, go_answers, go_leaves, stir_answers, stir_leaves, fail_answers, fail_leaves};
ghost use Rattle.junction.specs.Counts.{by_go};

use crate::counts::Note;
use crate::state::Junction;
use crate::stations::{Slot, Station};
use crate::wires::settles_some;
use boards::Board;
use disciplines::Discipline;
use steps::{FAILED, Flag, Go, IDLE, Outcome, Record, Refusal, Step};

/// So many starts, goes, stirs and fails are accepted, and no more.
const LIMIT: u64 = 4_000_000_000;

impl<D: Discipline, B: Board> Junction<D, B> {
    // The slot of station p, where there is one.
    pub(crate) fn slot(&self, p: usize) -> Result<Slot, Refusal>
        ensures { SlotOf p (unknown self.now p) result }
    {
        if p < self.size.stations {
            Ok(Slot { station: p })
        } else {
            Err(Refusal::NoStation)
        }
    }

    // The slot of station p, where neither its number nor the limit refuses a call of it.
    fn admit(&self, p: usize) -> Result<Slot, Refusal>
        ensures { SlotOf p (refused_first self.now p) result }
    {
        let slot = self.slot(p)?;
        if self.counts.used >= LIMIT {
            return Err(Refusal::Limit);
        }
        Ok(slot)
    }

    // The step that a go of a station with this pick asks for.
    fn asked(&self, slot: Slot, pick: usize) -> Step
        ensures { result ≡ asked self.now slot.station pick }
    {
        Step {
            size: self.size,
            station: slot.station,
            rec: self.stations.get(slot).rec,
            pick,
        }
    }

    // A call of station p is counted.
    fn count(&mut self, p: usize, note: Note)
        ensures { self.new ≡ counting self.old p note }
    {
        self.counts = self.counts.noted(note, self.size, p);
    }

    // A station becomes another, and the call is counted.
    pub(crate) fn step(&mut self, slot: Slot, next: Station, note: Note)
        ensures { self.new ≡ stepped self.old slot.station next note }
    {
        self.stations.put(slot, next);
        self.count(slot.station, note);
    }

    /// Starts an idle station.
    pub fn start(&mut self, p: usize) -> Result<Outcome, Refusal>
        ensures answers { result ≡ start_answers D.table B.meaning self.old p }
        ensures leaves { self.new ≡ start_leaves D.table B.meaning self.old p }
    {
        let slot = self.admit(p)?;
        let station = self.stations.get(slot);
        if station.rec.place != IDLE {
            return Err(Refusal::NotIdle);
        }
        let rec = D::start(self.size, station.rec);
        self.step(slot, Station { rec, ..station }, Note::by_start());
        Ok(Outcome::Accepted)
    }

    /// One step of a station. The pick says which member of a set it takes, where it wants one.
    pub fn go(&mut self, p: usize, pick: usize) -> Result<Outcome, Refusal>
        ensures answers { result ≡ go_answers D.table B.meaning self.old p pick }
        ensures leaves { self.new ≡ go_leaves D.table B.meaning self.old p pick }
    {
        let slot = self.admit(p)?;
        let step = self.asked(slot, pick);
        let high = self.hear(D::look(step));
        self.act(slot, D::go(step, high))
    }

    // What a go decided is done.
    fn act(&mut self, slot: Slot, go: Go) -> Result<Outcome, Refusal>
        ensures answers { result ≡ answered go }
        ensures leaves { self.new ≡ acted D.table B.meaning self.old slot.station go }
    {
        match go {
            Go::Idle => {
                self.stay(slot.station);
                Ok(Outcome::Idle)
            }
            Go::Waits => {
                self.stay(slot.station);
                Ok(Outcome::Waits)
            }
            Go::WrongPick => Err(Refusal::WrongPick),
            Go::MustLeave => Err(Refusal::MustLeave),
            Go::Moves(rec) => {
                self.arrive(slot, rec);
                Ok(Outcome::Accepted)
            }
            Go::Settles(part, high, rec) => {
                let station = slot.station;
                self.settle(Flag { station, part }, high);
                self.arrive(slot, rec);
                Ok(Outcome::Accepted)
            }
        }
    }

    // A go that changes nothing is counted, and the station is seen.
    fn stay(&mut self, p: usize)
        ensures { self.new ≡ counting self.old p (by_go false) }
    {
        self.count(p, Note::by_go(false));
    }

    // A go takes a station to this record.
    fn arrive(&mut self, slot: Slot, rec: Record)
        ensures { self.new ≡ stepped self.old slot.station (arrived rec (station_of self.old.stations slot.station)) (by_go (rec.place == D.table.grant)) }
    {
        let next = self.stations.get(slot).arrive(rec);
        self.step(slot, next, Note::by_go(rec.place == D::grant()));
    }

    /// Loosens the line that the station's next go would settle; all its lines where it has failed.
    pub fn stir(&mut self, p: usize) -> Result<Outcome, Refusal>
        ensures answers { result ≡ stir_answers D.table B.meaning self.old p }
        ensures leaves { self.new ≡ stir_leaves D.table B.meaning self.old p }
    {
        let slot = self.admit(p)?;
        let step = self.asked(slot, 0);
        let go = D::go(step, false);
        if !settles_some(go) {
            return Err(Refusal::NothingToSettle);
        }
        self.stir_lines(step, go);
        self.count(p, Note::by_start());
        Ok(Outcome::Accepted)
    }

    /// A station fails, wherever it stands. Its lines stay.
    pub fn fail(&mut self, p: usize) -> Result<Outcome, Refusal>
        ensures answers { result ≡ fail_answers D.table B.meaning self.old p }
        ensures leaves { self.new ≡ fail_leaves D.table B.meaning self.old p }
    {
        let slot = self.admit(p)?;
        let station = self.stations.get(slot);
        if station.rec.place == FAILED {
            return Err(Refusal::HasFailed);
        }
        let note = Note::by_fail(Self::holds(station.rec.place));
        let rec = Record::failed();
        self.step(slot, Station { rec, ..station }, note);
        Ok(Outcome::Accepted)
    }
}
