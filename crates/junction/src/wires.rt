//! What a junction does on its board: lines are named, and only here is a name turned into a number.
ghost use Rattle.std.specs.Prelude.{◌≡◌};
ghost use Rattle.runs.specs.Runs.{settles_some, stirs};
ghost use Rattle.junction.specs.Calls.{with_board};
ghost use Rattle.junction.specs.Wires.{hears, heard, settled_on, loosened_on, stirred_part, stirred_board, lowered};

use crate::state::Junction;
use boards::Board;
use disciplines::Discipline;
use steps::{FAILED, Flag, Go, Part, Step};

// Whether a go that does this settles a line.
pub(crate) fn settles_some(go: Go) -> bool
    ensures { result ≡ settles_some go }
{
    matches!(go, Go::Settles(..))
}

// Whether a stir loosens the line: at 39 every line of the station, else the one that the next go settles.
fn stirs_part(place: u8, go: Go, part: Part) -> bool
    ensures { result ≡ stirs place go part }
{
    place == FAILED || matches!(go, Go::Settles(own, _, _) if part == own)
}

impl<D: Discipline, B: Board> Junction<D, B> {
    // The line that a go looks at is read. Where there is none, or the board lacks it, the reading is low.
    pub(crate) fn hear(&mut self, look: Option<Flag>) -> bool
        ensures answers { result ≡ hears D.table B.meaning self.old.size.stations self.old.board look }
        ensures leaves { self.new ≡ with_board self.old (heard D.table B.meaning self.old.size.stations self.old.board look) }
    {
        let Some(line) = look.and_then(|flag| D::number(self.size, flag)) else {
            return false;
        };
        self.board.read(line).unwrap_or(false)
    }

    // (One function for settle and loosen, of the call that it makes, was tried: what a closure leaves of the board stays open.)
    pub(crate) fn settle(&mut self, flag: Flag, high: bool)
        ensures { self.new ≡ with_board self.old (settled_on D.table B.meaning self.old.size.stations self.old.board flag high) }
    {
        if let Some(line) = D::number(self.size, flag) {
            let _ = self.board.settle(line, high);
        }
    }

    fn loosen(&mut self, flag: Flag)
        ensures { self.new ≡ with_board self.old (loosened_on D.table B.meaning self.old.size.stations self.old.board flag) }
    {
        if let Some(line) = D::number(self.size, flag) {
            let _ = self.board.loosen(line);
        }
    }

    // One line of the station of a step, whose next go is this, in a stir of that station.
    fn stir_part(&mut self, step: Step, go: Go, part: Part)
        ensures { self.new ≡ with_board self.old (stirred_part D.table B.meaning self.old.size.stations step.station step.rec.place go part self.old.board) }
    {
        if stirs_part(step.rec.place, go, part) {
            self.loosen(Flag {
                station: step.station,
                part,
            });
        }
    }

    // A stir of the station of a step, whose next go is this. Four calls: a `for` over the parts would want an invariant longer than they are.
    pub(crate) fn stir_lines(&mut self, step: Step, go: Go)
        ensures { self.new ≡ with_board self.old (stirred_board D.table B.meaning self.old.size.stations step.station step.rec.place go self.old.board) }
    {
        self.stir_part(step, go, Part::Door);
        self.stir_part(step, go, Part::Claim);
        self.stir_part(step, go, Part::Turn(false));
        self.stir_part(step, go, Part::Turn(true));
    }
}

// Settles the first `lines` lines low.
pub(crate) fn lower<B: Board>(board: &mut B, lines: usize)
    ensures { board.new ≡ lowered B.meaning board.old lines }
{
    for line in 0..lines {
        let _ = board.settle(line, false);
    }
}
