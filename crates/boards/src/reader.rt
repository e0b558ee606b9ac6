//! How a board over cells answers a read.
ghost use Rattle.std.specs.Prelude.{◌≡◌, Bool};
ghost use Rattle.boards.specs.Cells.{AnswersSettled};
ghost use Rattle.boards.specs.declared.cells.Cell.{Cell};

use crate::cells::Cell;

/// What answers the reads of a board over cells.
pub trait Reader {
    // The answer to a read of a cell.
    ghost answers: { Self → Cell → Bool };

    // The reader that the read leaves.
    ghost onward: { Self → Cell → Self };

    /// The value last settled where the cell is settled; where it is loose, high or low as the reader likes.
    fn answer(&mut self, cell: Cell) -> bool
        ensures answers { result ≡ answers self.old cell }
        ensures leaves { self.new ≡ onward self.old cell };

    // The law of readers.
    ghost settled: { AnswersSettled answers };
}
