//! The report of a schedule.
ghost use Rattle.std.specs.Prelude.{◌≡◌, ◌≤◌};
ghost use Rattle.trails.specs.Meaning.{held};
ghost use Rattle.junction.specs.Promise.{after};
ghost use Rattle.schedule.specs.View.{plan};
ghost use Rattle.play.specs.Account.{Same, Tells};
ghost use Rattle.play.specs.Report.{all_calls, shown, shown_on, EndsByCalls, Reported};

use crate::account::{Account, REPORT_BYTES, write_at};
use crate::entries::{GrantEntry, RefusalEntry};
use crate::event::LINE;
use crate::events::play_events;
use boards::{Board, Hold, Tape};
use disciplines::{Discipline, FourLine, Plain};
use junction::Junction;
use numbers::Numbered;
use report::{end_line, refusal_line};
use schedule::{DisciplineKind, Schedule, parse};
use trails::Trail;

/// The lines of the bench's boards.
const LINES: usize = 64;

/// The name of the bench's junction.
const NAME: u32 = 1;

// Plays the schedule on a junction.
fn play_on<D: Discipline, B: Board>(
    j: &mut Junction<D, B>,
    schedule: &Schedule<'_>,
    account: &mut Account<'_, '_, '_>,
) -> usize
    ensures shown { Tells (shown D.table B.meaning j.old (plan schedule.now).events) account.old account.new result }
    ensures calls { j.new ≡ after D.table B.meaning j.old (all_calls D.table B.meaning j.old (plan schedule.now).events) }
    ensures same { Same account.old account.new }
{
    play_events(j, schedule, account);
    let totals = j.totals();
    let at = LINE * schedule.len();
    let line = end_line(totals.grants, totals.ends, totals.rounds);
    write_at(account.out, at, &line);
    at + line.len()
}

// Plays the schedule on a new junction of its discipline over the board.
fn play_over<B: Board + Drop>(
    board: B,
    schedule: &Schedule<'_>,
    account: &mut Account<'_, '_, '_>,
) -> usize
    ensures shown { Tells (shown_on B.meaning board (plan schedule.now) (plan schedule.now).discipline) account.old account.new result }
    ensures same { Same account.old account.new }
{
    let stations = usize::from(schedule.stations());
    match schedule.discipline() {
        DisciplineKind::FourLine => {
            let mut j = Junction::make_fair(FourLine, stations, NAME, board);
            play_on(&mut j, schedule, account)
        }
        DisciplineKind::Plain => {
            let mut j = Junction::make(Plain, stations, NAME, board);
            play_on(&mut j, schedule, account)
        }
    }
}

/// Plays the schedule in the bytes, writes its report to the front of the buffer and tells how long it is. Bytes that are no
/// schedule get the line of their refusal.
// The length stands beside the caller's buffer: a `Vec` can fail to grow, and a report is always written; were the bytes handed
// out as a slice, no clause could say what the whole buffer holds.
#[tactic(auto, using(crate::proofs::Noted::ends_by_calls))]
pub fn write_report(
    bytes: &[u8],
    out: &mut [u8; REPORT_BYTES],
    grants: &mut Trail<'_, GrantEntry>,
    refusals: &mut Trail<'_, RefusalEntry>,
) -> usize
    ensures calls { EndsByCalls }
    ensures all { Reported bytes.now out.old out.new result (held grants.old) (held grants.new) (held refusals.old) (held refusals.new) }
    ensures fits { result ≤ REPORT_BYTES }
    ensures grants { grants.new.slots.ghost_name ≡ grants.old.slots.ghost_name }
    ensures refusals { refusals.new.slots.ghost_name ≡ refusals.old.slots.ghost_name }
{
    let schedule = match parse(bytes) {
        Ok(schedule) => schedule,
        Err(refusal) => {
            let line = refusal_line(refusal.number(), refusal.index());
            write_at(out, 0, &line);
            return line.len();
        }
    };
    let mut account = Account {
        out,
        grants,
        refusals,
    };
    let noise = schedule.noise();
    if noise.is_empty() {
        play_over(Hold::new(LINES), &schedule, &mut account)
    } else {
        play_over(Tape::new(LINES, noise), &schedule, &mut account)
    }
}
