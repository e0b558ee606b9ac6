//! The tape board.
ghost use Rattle.std.specs.Prelude.{◌≡◌, min, slice_index};
ghost use Rattle.boards.specs.Lines.{Fresh, Lawful};
ghost use Rattle.boards.specs.Cells.{most_lines};
ghost use Rattle.boards.specs.Tape.{tape, new_tape, next_bit, noise_answers, noise_onward, noise_settled, byte_behind, after_bit, AnswersInTurn};

use crate::cell_board::CellBoard;
use crate::cells::Cell;
use crate::reader::Reader;

/// What answers the reads of a tape board: noise, and the place in it.
// The place is a byte and a bit in it: one number would have to go up to eight times the length, more than a usize may hold.
#[derive(Drop)]
pub struct Noise<'a> {
    bytes: &'a [u8],
    byte: usize,
    bit: u32,
}

impl<'a> Noise<'a> {
    fn next_bit(&self) -> bool
        ensures { result ≡ next_bit self.now }
    {
        let byte = self.bytes.get(self.byte).copied().unwrap_or(0);
        byte.unbounded_shr(self.bit) % 2 == 1
    }

    // One bit further.
    fn move_on(&mut self)
        ensures { self.new ≡ after_bit self.old }
    {
        if self.bit < 7 {
            self.bit += 1;
        } else {
            self.byte = next_byte(self.byte, self.bytes.len());
            self.bit = 0;
        }
    }
}

impl<'a> Reader for Noise<'a> {
    ghost answers = { noise_answers };

    ghost onward = { noise_onward };

    ghost settled = { noise_settled };

    fn answer(&mut self, cell: Cell) -> bool {
        if !cell.loose {
            return cell.last;
        }
        let high = self.next_bit();
        self.move_on();
        high
    }
}

/// A board that answers a loose line with the next bit of borrowed noise, 1 for high.
///
/// Bits are taken from the lowest of a byte, and the tape begins again after its last byte. An empty tape gives low.
pub type Tape<'a> = CellBoard<Noise<'a>>;

impl<'a> Tape<'a> {
    /// A board of that many lines, at most 64, all settled low, at the start of the noise.
    pub fn new(lines: usize, noise: &'a [u8]) -> Self
        ensures value { result ≡ new_tape lines noise.entry }
        ensures fresh { Fresh tape (min lines most_lines) result }
        ensures bits { AnswersInTurn noise.now result }
        ensures lawful { Lawful tape }
    {
        let start = Noise {
            bytes: noise,
            byte: 0,
            bit: 0,
        };
        CellBoard::over(lines, start)
    }
}

// The byte behind byte i of n, the first behind the last.
fn next_byte(i: usize, n: usize) -> usize
    ensures { result ≡ byte_behind i n }
{
    if i < n.saturating_sub(1) { i + 1 } else { 0 }
}
