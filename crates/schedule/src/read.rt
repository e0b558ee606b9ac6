//! Reading a schedule.
ghost use Rattle.std.specs.Prelude.{◌≡◌, ◌+◌, ◌≤◌, length, Ok, IfOk};
ghost use Rattle.schedule.specs.Limits.{longest};
ghost use Rattle.schedule.specs.Events.{first_unknown};
ghost use Rattle.schedule.specs.Decode.{decode, with_body};
ghost use Rattle.schedule.specs.View.{plan, answer};
ghost use Rattle.schedule.specs.Encode.{Fits, ReadsBack};

use crate::discipline::DisciplineKind;
use crate::event::Event;
use crate::events::Events;
use crate::refusal::Refusal;
use crate::view::Schedule;

const LONGEST: usize = 60_000;

const MOST_EVENTS: usize = 16_384;

const MOST_STATIONS: u8 = 16;

/// The schedule in `bytes`, or the first refusal that applies. What is accepted keeps within the limits, and every plan
/// within the limits, written as bytes, is accepted and read as that plan.
pub fn parse(bytes: &[u8]) -> Result<Schedule<'_>, Refusal>
    ensures value { answer result ≡ decode bytes.now }
    ensures fits { IfOk result (λ s. Fits (plan s)) }
    ensures reads_back { ReadsBack bytes.now (answer result) }
{
    if bytes.len() > LONGEST {
        return Err(Refusal::TooLong);
    }
    let [letter, stations, hi, lo, rest @ ..] = bytes else {
        return Err(Refusal::NoHeader);
    };
    body(
        DisciplineKind::try_from(*letter)?,
        *stations,
        usize::from(u16::from_be_bytes([*hi, *lo])),
        rest,
    )
}

// What follows the header.
#[tactic(auto, using(crate::proofs::Told::length_events))]
fn body(
    discipline: DisciplineKind,
    stations: u8,
    events: usize,
    rest: &[u8],
) -> Result<Schedule<'_>, Refusal>
    requires { 4 + length rest.now ≤ longest }
    ensures { answer result ≡ with_body (Ok discipline) stations events rest.now }
{
    if events > MOST_EVENTS {
        return Err(Refusal::TooManyEvents);
    }
    if rest.len() < 3 * events {
        return Err(Refusal::EventsCutShort);
    }
    if !(1..=MOST_STATIONS).contains(&stations) {
        return Err(Refusal::BadStationCount);
    }
    let (letters, behind) = rest.split_at(events);
    if let Some(index) = first_unknown(letters) {
        return Err(Refusal::UnknownEvent { index });
    }
    let (operands, noise) = behind.split_at(2 * events);
    Ok(Schedule {
        discipline,
        stations,
        events: Events { letters, operands },
        noise,
    })
}

// The index of the first letter that no event has. Inside `body` the proof does not follow what the closure answered.
fn first_unknown(letters: &[u8]) -> Option<usize>
    ensures { result ≡ first_unknown letters.now }
{
    letters
        .iter()
        .position(|letter| Event::of_letter(*letter, 0, 0).is_none())
}
