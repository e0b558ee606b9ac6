//! The odd board.
ghost use Rattle.std.specs.Prelude.{◌≡◌, Bool, length, Ok, Err};
ghost use Rattle.boards.specs.Lines.{within};
ghost use Rattle.odd_board.specs.Odd.{heard, settled_at, with_line, odd, odd_lawful, new_odd};

use boards::{Board, Refused, known_line};

/// How many lines the board has: those of four stations of four lines.
const LINES: usize = 16;

/// A line as this board keeps it.
#[derive(Clone, Copy, Debug, PartialEq, Eq)]
pub(crate) enum Kept {
    Low,
    High,
    Loose,
}

impl Kept {
    // A settled line answers its value, a loose one what is given.
    fn heard(self, loose: bool) -> bool
        ensures { result ≡ heard self loose }
    {
        match self {
            Kept::Low => false,
            Kept::High => true,
            Kept::Loose => loose,
        }
    }
}

impl From<bool> for Kept {
    ghost from_gives = { λ high kept. kept ≡ settled_at high };

    fn from(high: bool) -> Self {
        if high { Kept::High } else { Kept::Low }
    }
}

/// A board that answers a loose line high at every second read, counted over all lines.
#[derive(Drop)]
pub struct OddBoard {
    lines: [Kept; LINES],
    /// The reads so far; the count goes round.
    reads: u8,
}

impl OddBoard {
    /// A board of sixteen lines, all settled low.
    pub fn new() -> OddBoard
        ensures { result ≡ new_odd }
    {
        OddBoard {
            lines: [Kept::Low; LINES],
            reads: 0,
        }
    }

    // The line is kept so from now on.
    fn set(&mut self, line: usize, kept: Kept) -> Result<(), Refused>
        ensures answers { result ≡ within line (length self.old.lines) (Ok tt) (Err Refused.NoLine) }
        ensures leaves { self.new ≡ within line (length self.old.lines) (with_line self.old line kept) self.old }
    {
        let i = known_line(line, self.lines.len())?;
        self.lines[i] = kept;
        Ok(())
    }
}

impl Board for OddBoard {
    ghost meaning = { odd };

    ghost lawful = { odd_lawful };

    fn count(&self) -> usize {
        self.lines.len()
    }

    fn read(&mut self, line: usize) -> Result<bool, Refused> {
        let i = known_line(line, self.count())?;
        let high = self.lines[i].heard(self.reads % 2 == 1);
        self.reads = self.reads.wrapping_add(1);
        Ok(high)
    }

    fn loosen(&mut self, line: usize) -> Result<(), Refused> {
        self.set(line, Kept::Loose)
    }

    fn settle(&mut self, line: usize, high: bool) -> Result<(), Refused> {
        self.set(line, high.into())
    }
}
