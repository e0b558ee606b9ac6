//! The calls that hand passes out and in: take, leave and void.
ghost use Rattle.std.specs.Prelude.{◌≡◌, ℕ};
ghost use Rattle.junction.specs.Calls.{take_answers, take_leaves, leave_answers, leave_leaves, void_answers, LeaveFollows};
ghost use Rattle.junction.specs.TakeLeave.{take_leave_answers, take_leave_leaves};

use crate::counts::Note;
use crate::pass::Pass;
use crate::state::Junction;
use crate::stations::Station;
use boards::Board;
use disciplines::Discipline;
use steps::{MERGING, Outcome, RELEASE, Refusal};

impl<D: Discipline, B: Board> Junction<D, B> {
    /// The pass of a station that has arrived on the merge; once for each arrival. A leave with it, next, is accepted.
    pub fn take(&mut self, p: usize) -> Result<Pass, Refusal>
        ensures answers { result ≡ take_answers D.table B.meaning self.old p }
        ensures leaves { self.new ≡ take_leaves D.table B.meaning self.old p }
        ensures good { LeaveFollows D.table B.meaning self.new p result }
    {
        let slot = self.slot(p)?;
        let station = self.stations.get(slot);
        if station.rec.place != MERGING || station.taken {
            return Err(Refusal::NoPass);
        }
        let next = Station {
            taken: true,
            ..station
        };
        self.stations.put(slot, next);
        Ok(Pass {
            name: self.name,
            station: p,
            arrival: station.arrivals,
        })
    }

    /// Leaves the merge with the current pass of its station. A refused leave hands the pass back.
    pub fn leave(&mut self, pass: Pass) -> Result<Outcome, (Pass, Refusal)>
        ensures answers { result ≡ leave_answers D.table B.meaning self.old pass }
        ensures leaves { self.new ≡ leave_leaves D.table B.meaning self.old pass }
    {
        let Ok(slot) = self.slot(pass.station) else {
            return Err((pass, Refusal::NoStation));
        };
        let station = self.stations.get(slot);
        if pass.name != self.name || !pass.is_current(station) {
            return Err((pass, Refusal::NotCurrent));
        }
        pass.end();
        let note = Note::by_leave(Self::holds(station.rec.place));
        let rec = station.rec.to(RELEASE);
        self.step(slot, Station { rec, ..station }, note);
        Ok(Outcome::Accepted)
    }

    /// Takes the pass of a station and leaves with it. A leave with a pass just taken is never refused.
    pub fn take_and_leave(&mut self, p: usize) -> Result<Outcome, Refusal>
        ensures answers { result ≡ take_leave_answers D.table B.meaning self.old p }
        ensures leaves { self.new ≡ take_leave_leaves D.table B.meaning self.old p }
    {
        let pass = self.take(p)?;
        Ok(self.leave(pass).unwrap())
    }

    /// Hands in a pass that is no longer current. A refused void hands it back.
    pub fn void(&self, pass: Pass) -> Result<Outcome, (Pass, Refusal)>
        ensures { result ≡ void_answers D.table B.meaning self.now pass }
    {
        let Ok(slot) = self.slot(pass.station) else {
            return Err((pass, Refusal::NoStation));
        };
        let station = self.stations.get(slot);
        if pass.name != self.name || pass.is_current(station) {
            return Err((pass, Refusal::StillCurrent));
        }
        pass.end();
        Ok(Outcome::Accepted)
    }
}
