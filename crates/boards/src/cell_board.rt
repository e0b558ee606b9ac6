//! The board over cells.
ghost use Rattle.std.specs.Prelude.{◌≡◌, min};
ghost use Rattle.boards.specs.Lines.{Fresh};
ghost use Rattle.boards.specs.Cells.{most_lines};
ghost use Rattle.boards.specs.CellBoard.{cell_board, cell_board_lawful, new_board};

use crate::board::{Board, Refused};
use crate::cells::Cells;
use crate::reader::Reader;

/// A board that keeps its lines in cells. What it answers is its reader's.
#[derive(Drop)]
pub struct CellBoard<R> {
    cells: Cells,
    reader: R,
}

impl<R: Reader> CellBoard<R> {
    // A board of that many lines, up to the most, all settled low.
    pub(crate) fn over(lines: usize, reader: R) -> Self
        ensures value { result ≡ new_board lines reader }
        ensures fresh { Fresh (cell_board R.answers R.onward) (min lines most_lines) result }
    {
        CellBoard {
            cells: Cells::new(lines),
            reader,
        }
    }
}

impl<R: Reader> Board for CellBoard<R> {
    ghost meaning = { cell_board R.answers R.onward };

    ghost lawful = { cell_board_lawful R.answers R.onward R.settled };

    fn count(&self) -> usize {
        self.cells.count()
    }

    fn read(&mut self, line: usize) -> Result<bool, Refused> {
        let cell = self.cells.get(line)?;
        Ok(self.reader.answer(cell))
    }

    fn loosen(&mut self, line: usize) -> Result<(), Refused> {
        self.cells.loosen(line)
    }

    fn settle(&mut self, line: usize, high: bool) -> Result<(), Refused> {
        self.cells.settle(line, high)
    }
}
