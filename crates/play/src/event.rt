//! One event.
ghost use Rattle.std.specs.Prelude.{◌≡◌};
ghost use Rattle.play.specs.OneEvent.{answer, after_event, grant_between, refusal_of, written_of};

use crate::entries::{GrantEntry, RefusalEntry};
use boards::Board;
use disciplines::Discipline;
use junction::{Junction, Totals};
use numbers::Numbered;
use report::event_line;
use schedule::Event;
use steps::{Outcome, Refusal};

/// The bytes of an event's line.
pub(crate) const LINE: usize = 12;

/// What an event came to: its line of the report, and what is noted of it.
#[derive(Clone, Copy)]
pub(crate) struct Written {
    pub(crate) line: [u8; LINE],
    pub(crate) grant: Option<GrantEntry>,
    pub(crate) refusal: Option<RefusalEntry>,
}

// Makes the call of an event, or the two calls of an L.
fn play_one<D: Discipline, B: Board>(
    j: &mut Junction<D, B>,
    event: Event,
) -> Result<Outcome, Refusal>
    ensures answers { result ≡ answer D.table B.meaning j.old event }
    ensures leaves { j.new ≡ after_event D.table B.meaning j.old event }
{
    let p = usize::from(event.station());
    match event {
        Event::Start { .. } => j.start(p),
        Event::Go { pick, .. } => j.go(p, usize::from(pick)),
        Event::Stir { .. } => j.stir(p),
        Event::Fail { .. } => j.fail(p),
        Event::Leave { .. } => j.take_and_leave(p),
    }
}

fn refusal_entry(
    answer: Result<Outcome, Refusal>,
    event: Event,
    index: usize,
) -> Option<RefusalEntry>
    ensures { result ≡ refusal_of answer event index }
{
    answer.err().map(|refusal| RefusalEntry {
        event,
        index,
        number: refusal.number(),
    })
}

// A grant is noted where the junction's count of them rose.
fn grant_entry(before: Totals, after: Totals, station: u8) -> Option<GrantEntry>
    ensures { result ≡ grant_between before after station }
{
    (before.grants < after.grants).then_some(GrantEntry {
        station,
        rounds: after.rounds,
    })
}

// Plays the event that stands at an index, and tells its line and what is to be noted.
pub(crate) fn play_event<D: Discipline, B: Board>(
    j: &mut Junction<D, B>,
    event: Event,
    index: usize,
) -> Written
    ensures value { result ≡ written_of D.table B.meaning j.old event index }
    ensures leaves { j.new ≡ after_event D.table B.meaning j.old event }
{
    let before = j.totals();
    let answer = play_one(j, event);
    let after = j.totals();
    let station = event.station();
    let place = j.place(usize::from(station)).unwrap_or(0);
    Written {
        line: event_line(event.letter(), station, place, answer.number()),
        grant: grant_entry(before, after, station),
        refusal: refusal_entry(answer, event, index),
    }
}
