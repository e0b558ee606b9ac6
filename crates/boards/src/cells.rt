//! The lines as memory keeps them. A board over cells adds how a loose line answers.
ghost use Rattle.std.specs.Prelude.{◌≡◌, ◌≤◌, Ok, Err};
ghost use Rattle.boards.specs.Lines.{within};
ghost use Rattle.boards.specs.Cells.{most_lines, size, cell_at, new_cells, with_loose, with_settled};

use crate::board::{Refused, known_line};

/// How many lines a board over cells has at most.
const MOST_LINES: usize = 64;

/// One line: the value last settled there, and whether it is loose now.
// Two flags and no enum with a value in each variant: a loose line has its last value as a settled one does.
#[derive(Clone, Copy, Debug, Default, PartialEq, Eq)]
pub struct Cell {
    pub last: bool,
    pub loose: bool,
}

/// Lines from 0, as many as asked for, up to `MOST_LINES`.
// An array and a number beside it: the chip has no heap.
#[derive(Drop)]
pub(crate) struct Cells {
    cells: [Cell; MOST_LINES],
    asked: usize,
}

impl Cells {
    // All lines settled low.
    pub(crate) fn new(lines: usize) -> Cells
        ensures { result ≡ new_cells lines }
    {
        Cells {
            cells: [Cell::default(); MOST_LINES],
            asked: lines,
        }
    }

    // The array's own length is the cap, so this is right of every value.
    pub(crate) fn count(&self) -> usize
        ensures value { result ≡ size self.now }
        ensures few { result ≤ most_lines }
    {
        self.asked.min(self.cells.len())
    }

    // The cell of a line.
    pub(crate) fn get(&self, line: usize) -> Result<Cell, Refused>
        ensures { result ≡ within line (size self.now) (Ok (cell_at self.now line)) (Err Refused.NoLine) }
    {
        Ok(self.cells[known_line(line, self.count())?])
    }

    // A loose line keeps the value last settled there.
    pub(crate) fn loosen(&mut self, line: usize) -> Result<(), Refused>
        ensures answers { result ≡ within line (size self.old) (Ok tt) (Err Refused.NoLine) }
        ensures leaves { self.new ≡ within line (size self.old) (with_loose self.old line) self.old }
    {
        let i = known_line(line, self.count())?;
        self.cells[i].loose = true;
        Ok(())
    }

    pub(crate) fn settle(&mut self, line: usize, high: bool) -> Result<(), Refused>
        ensures answers { result ≡ within line (size self.old) (Ok tt) (Err Refused.NoLine) }
        ensures leaves { self.new ≡ within line (size self.old) (with_settled self.old line high) self.old }
    {
        let i = known_line(line, self.count())?;
        self.cells[i] = Cell {
            last: high,
            loose: false,
        };
        Ok(())
    }
}
