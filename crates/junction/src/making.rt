//! Making a junction.
ghost use Rattle.std.specs.Prelude.{◌≡◌, ℕ, ◌*◌, ◌≤◌, List, Some, IfOk};
ghost use Rattle.junction.specs.Making.{unfit_number, check_number, unfit_text, check_answers, room_for, new_junction};
ghost use Rattle.junction.specs.Promise.{Call, SafeMerge, ServedInOrder};

use crate::counts::Counts;
use crate::state::Junction;
use crate::stations::{MOST_STATIONS, Station, Stations};
use crate::wires::lower;
use boards::Board;
use disciplines::{Discipline, FairDiscipline};
use numbers::Numbered;
use std::error::Error;
use std::fmt;
use steps::Size;

/// Why there can be no junction, with its number.
#[derive(Clone, Copy, PartialEq, Eq, Debug)]
pub enum Unfit {
    /// No stations, or more than sixteen.
    Stations = 1,
    /// The board has too few lines.
    Lines = 2,
}

impl Numbered for Unfit {
    ghost numbered = { unfit_number };

    fn number(self) -> u8 {
        self as u8
    }
}

/// The number of what `Junction::check` answers: 0 where there can be a junction.
pub fn check_number(answer: Result<(), Unfit>) -> u8
    ensures { result ≡ check_number answer }
{
    answer.number()
}

impl fmt::Display for Unfit {
    ghost output = { λ unfit. Some (unfit_text unfit) };

    fn fmt<W: fmt::Write>(&self, f: &mut fmt::Formatter<W>) -> fmt::Result {
        f.write_str(match self {
            Unfit::Stations => "no station, or more than 16",
            Unfit::Lines => "too few lines on the board",
        })
    }
}

impl Error for Unfit {}

impl<D: Discipline, B: Board> Junction<D, B> {
    /// Whether there can be a junction of that many stations over the board.
    pub fn check(stations: usize, board: &B) -> Result<(), Unfit>
        ensures { result ≡ check_answers D.table B.meaning stations board.now }
    {
        Self::room(stations, board)?;
        Ok(())
    }

    // The lines of that many stations, where there can be a junction of them over the board.
    fn room(stations: usize, board: &B) -> Result<usize, Unfit>
        ensures finds { result ≡ room_for D.table B.meaning stations board.now }
        ensures few { IfOk result (λ lines. stations ≤ 16) }
    {
        if !(1..=MOST_STATIONS).contains(&stations) {
            return Err(Unfit::Stations);
        }
        let count = board.count();
        let lines = stations.checked_mul(D::lines());
        lines.filter(|x| *x <= count).ok_or(Unfit::Lines)
    }

    /// A junction of that many stations and that name over the board. The lines of its stations are settled low, and others stay.
    /// What `check` refuses makes a junction of no stations, and leaves the board as it was.
    pub fn make(discipline: D, stations: usize, name: u32, mut board: B) -> Self
        ensures made { result ≡ new_junction D.table B.meaning discipline stations name board }
        ensures safe { (calls : List Call) → SafeMerge D.table B.meaning result calls }
    {
        let stations = match Self::room(stations, &board) {
            Ok(lines) => {
                lower(&mut board, lines);
                stations
            }
            Err(_) => 0,
        };
        Junction {
            discipline,
            size: Size { stations },
            name,
            stations: Stations {
                at: [Station::new(); MOST_STATIONS],
            },
            counts: Counts::new(),
            board,
        }
    }
}

impl<D: FairDiscipline, B: Board> Junction<D, B> {
    /// A junction of a fair discipline: made as by `make`, and first come, first served.
    pub fn make_fair(discipline: D, stations: usize, name: u32, board: B) -> Self
        ensures made { result ≡ new_junction D.table B.meaning discipline stations name board }
        ensures safe { (calls : List Call) → SafeMerge D.table B.meaning result calls }
        ensures order { (calls : List Call) → ServedInOrder D.table B.meaning result calls }
    {
        Self::make(discipline, stations, name, board)
    }
}
