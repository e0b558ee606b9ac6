//! Passes: each is handed in by the function that took it, with a leave or with a void.
ghost use Rattle.std.specs.Prelude.{◌≡◌};
ghost use Rattle.junction.specs.Calls.{take_answers, take_leaves};
ghost use Rattle.junction.specs.TakeLeave.{left_leaves};
ghost use Rattle.drill.specs.Passes.{ended_after, failed_after};

use boards::Board;
use disciplines::Discipline;
use junction::Junction;
use numbers::Numbered;
use std::fmt;
use steps::Refusal;

/// How a pass ended.
#[derive(Clone, Copy)]
pub(crate) enum Ended {
    /// The station left the merge with it.
    Left,
    /// The leave was refused, and the pass was voided.
    Voided(Refusal),
}

impl fmt::Display for Ended {
    fn fmt<W: fmt::Write>(&self, f: &mut fmt::Formatter<W>) -> fmt::Result {
        match self {
            Ended::Left => write!(f, "taken, and left with"),
            Ended::Voided(refusal) => {
                write!(f, "taken, leave refused, {}, and voided", refusal.number())
            }
        }
    }
}

// A station on the merge takes its pass and leaves with it.
pub(crate) fn take_and_leave<D: Discipline, B: Board>(
    j: &mut Junction<D, B>,
    p: usize,
) -> Result<Ended, Refusal>
    ensures answers { result ≡ ended_after D.table B.meaning (take_leaves D.table B.meaning j.old p) (take_answers D.table B.meaning j.old p) }
    ensures leaves { j.new ≡ left_leaves D.table B.meaning (take_leaves D.table B.meaning j.old p) (take_answers D.table B.meaning j.old p) }
{
    j.take_and_leave(p).map(|_| Ended::Left)
}

// A station on the merge takes its pass and fails with it in hand, so that the pass comes too late for a leave. It is
// voided: a pass of this junction's own is current or not, so one of the two takes it.
pub(crate) fn take_and_fail<D: Discipline, B: Board>(
    j: &mut Junction<D, B>,
    p: usize,
) -> Result<Ended, Refusal>
    ensures answers { result ≡ ended_after D.table B.meaning (failed_after D.table B.meaning (take_leaves D.table B.meaning j.old p) p (take_answers D.table B.meaning j.old p)) (take_answers D.table B.meaning j.old p) }
    ensures leaves { j.new ≡ left_leaves D.table B.meaning (failed_after D.table B.meaning (take_leaves D.table B.meaning j.old p) p (take_answers D.table B.meaning j.old p)) (take_answers D.table B.meaning j.old p) }
{
    let pass = j.take(p)?;
    let _ = j.fail(p);
    match j.leave(pass) {
        Ok(_) => Ok(Ended::Left),
        Err((pass, refusal)) => {
            j.void(pass).unwrap();
            Ok(Ended::Voided(refusal))
        }
    }
}
