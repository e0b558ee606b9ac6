//! The four calls that every board offers.
ghost use Rattle.std.specs.Prelude.{◌≡◌, Some, Ok, Err};
ghost use Rattle.boards.specs.Lines.{Meaning, Lawful, within};
ghost use Rattle.boards.specs.Refusals.{refused_number, refused_text};

use numbers::Numbered;
use std::error::Error;
use std::fmt;

/// Why a call on a board is refused.
#[derive(Clone, Copy, Debug, PartialEq, Eq)]
pub enum Refused {
    /// The line number is not below the count.
    NoLine = 30,
}

impl Numbered for Refused {
    ghost numbered = { refused_number };

    fn number(self) -> u8 {
        self as u8
    }
}

impl fmt::Display for Refused {
    ghost output = { λ refused. Some (refused_text refused) };

    fn fmt<W: fmt::Write>(&self, f: &mut fmt::Formatter<W>) -> fmt::Result {
        f.write_str(match self {
            Refused::NoLine => "no line of that number",
        })
    }
}

impl Error for Refused {}

/// The line itself, where it is one of so many.
pub fn known_line(line: usize, count: usize) -> Result<usize, Refused>
    ensures { result ≡ within line count (Ok line) (Err Refused.NoLine) }
{
    (line < count).then_some(line).ok_or(Refused::NoLine)
}

/// A flag memory of numbered lines (the field's word for a line: safe register).
///
/// A refused call changes nothing.
pub trait Board {
    // The lines, what a read answers, and the board that each call leaves.
    ghost meaning: { Meaning Self };

    /// How many lines there are; they are numbered from 0.
    fn count(&self) -> usize
        ensures { result ≡ meaning.count self.now };

    /// The value of a settled line; of a loose one, high or low as the board likes.
    fn read(&mut self, line: usize) -> Result<bool, Refused>
        ensures answers { result ≡ within line (meaning.count self.old) (Ok (meaning.answer self.old line)) (Err Refused.NoLine) }
        ensures leaves { self.new ≡ within line (meaning.count self.old) (meaning.after_read self.old line) self.old };

    /// Makes the line loose, and changes no other.
    fn loosen(&mut self, line: usize) -> Result<(), Refused>
        ensures answers { result ≡ within line (meaning.count self.old) (Ok tt) (Err Refused.NoLine) }
        ensures leaves { self.new ≡ within line (meaning.count self.old) (meaning.loosened self.old line) self.old };

    /// Settles the line at the given value, and changes no other.
    fn settle(&mut self, line: usize, high: bool) -> Result<(), Refused>
        ensures answers { result ≡ within line (meaning.count self.old) (Ok tt) (Err Refused.NoLine) }
        ensures leaves { self.new ≡ within line (meaning.count self.old) (meaning.set_to self.old line high) self.old };

    // The law of boards: what each keeps of its meaning.
    ghost lawful: { Lawful meaning };
}
