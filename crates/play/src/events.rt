//! All events of a schedule.
ghost use Rattle.std.specs.Prelude.{◌≡◌, ◌*◌, ◌++◌, length, drop};
ghost use Rattle.trails.specs.Held.{all_put};
ghost use Rattle.trails.specs.Meaning.{held};
ghost use Rattle.schedule.specs.View.{plan};
ghost use Rattle.play.specs.Account.{Same};
ghost use Rattle.play.specs.Report.{end_of, lines_of, grants_of, refusals_of};

use crate::account::Account;
use crate::event::{LINE, play_event};
use boards::Board;
use disciplines::Discipline;
use junction::Junction;
use schedule::Schedule;

// Plays all events. Line i of the report is that of event i.
pub(crate) fn play_events<D: Discipline, B: Board>(
    j: &mut Junction<D, B>,
    schedule: &Schedule<'_>,
    account: &mut Account<'_, '_, '_>,
)
    ensures junction { j.new ≡ end_of D.table B.meaning j.old (plan schedule.now).events }
    ensures text { account.new.out.now ≡ lines_of D.table B.meaning j.old (plan schedule.now).events 0 ++ drop (LINE * length (plan schedule.now).events) account.old.out.now }
    ensures grants { held account.new.grants.now ≡ all_put (held account.old.grants.now) (grants_of D.table B.meaning j.old (plan schedule.now).events 0) }
    ensures refusals { held account.new.refusals.now ≡ all_put (held account.old.refusals.now) (refusals_of D.table B.meaning j.old (plan schedule.now).events 0) }
    ensures same { Same account.old account.new }
{
    for (i, event) in schedule.events().enumerate() {
        account.write(i, play_event(j, event, i));
    }
}
