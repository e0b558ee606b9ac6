//! A schedule that was read.
ghost use Rattle.std.specs.Prelude.{◌≡◌, ℕ, ◌+◌, ◌*◌, ◌≤◌, length};
ghost use Rattle.schedule.specs.Limits.{longest, most_events, most_stations};
ghost use Rattle.schedule.specs.Left.{left};

use crate::discipline::DisciplineKind;
use crate::event::Event;
use crate::events::Events;

/// A schedule. Its events and its noise lie in the bytes that it was read from.
#[derive(Drop)]
pub struct Schedule<'a> {
    pub(crate) discipline: DisciplineKind,
    pub(crate) stations: u8,
    pub(crate) events: Events<'a>,
    pub(crate) noise: &'a [u8],
    ghost some_station: { 1 ≤ stations },
    ghost few_stations: { stations ≤ most_stations },
    ghost few_events: { length (left events) ≤ most_events },
    ghost short: { 4 + 3 * length (left events) + length noise.now ≤ longest },
}

impl<'a> Schedule<'a> {
    ghost use Rattle.std.specs.Prelude.{slice_get};
    ghost use Rattle.schedule.specs.View.{plan};

    /// The discipline of the stations.
    pub fn discipline(&self) -> DisciplineKind
        ensures { result ≡ (plan self.now).discipline }
    {
        self.discipline
    }

    /// The number of stations.
    pub fn stations(&self) -> u8
        ensures { result ≡ (plan self.now).stations }
    {
        self.stations
    }

    /// The number of events.
    #[tactic(auto, using(crate::proofs::Told::length_events))]
    pub fn len(&self) -> usize
        ensures { result ≡ length (plan self.now).events }
    {
        let Events { letters, .. } = self.events;
        letters.len()
    }

    /// The event at an index, or none past the last.
    // By index: of `self.events().nth(i)` a proof does not find which event it is.
    #[tactic(auto, using(crate::proofs::Told::event_at))]
    pub fn event(&self, i: usize) -> Option<Event>
        ensures { result ≡ slice_get (plan self.now).events i }
    {
        let Events { letters, operands } = self.events;
        let letter = *letters.get(i)?;
        Event::of_letter(letter, operands[2 * i], operands[2 * i + 1])
    }

    /// The events, in their order.
    pub fn events(&self) -> Events<'a>
        ensures { left result ≡ (plan self.now).events }
    {
        self.events
    }

    /// The bytes behind the events: the noise of a tape.
    pub fn noise(&self) -> &'a [u8]
        ensures { result.now ≡ (plan self.now).noise }
    {
        self.noise
    }
}
