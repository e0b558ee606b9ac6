//! The hold board.
ghost use Rattle.std.specs.Prelude.{◌≡◌, min, refl};
ghost use Rattle.boards.specs.Lines.{Fresh, Lawful};
ghost use Rattle.boards.specs.Cells.{most_lines};
ghost use Rattle.boards.specs.Hold.{hold, new_hold, AnswersLast};

use crate::cell_board::CellBoard;
use crate::cells::Cell;
use crate::reader::Reader;

/// What answers the reads of a hold board: nothing but the cell that is read.
#[derive(Drop)]
pub struct Last;

impl Reader for Last {
    ghost answers = { λ r c. c.last };

    ghost onward = { λ r c. r };

    ghost settled = { λ r c e. refl };

    fn answer(&mut self, cell: Cell) -> bool {
        cell.last
    }
}

/// A board that answers a loose line with the value last settled there.
pub type Hold = CellBoard<Last>;

impl Hold {
    /// A board of that many lines, at most 64, all settled low.
    pub fn new(lines: usize) -> Self
        ensures value { result ≡ new_hold lines }
        ensures fresh { Fresh hold (min lines most_lines) result }
        ensures last { AnswersLast result }
        ensures lawful { Lawful hold }
    {
        CellBoard::over(lines, Last)
    }
}
