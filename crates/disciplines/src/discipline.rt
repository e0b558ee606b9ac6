//! What the junction asks of a discipline.
ghost use Rattle.std.specs.Prelude.{◌≡◌, Bool, ℕ};
ghost use Rattle.steps.specs.declared.record.Record.{Record};
ghost use Rattle.steps.specs.Table.{Table};
ghost use Rattle.runs.specs.Laws.{LinesApart, OneHolder, NeverStuck, InOrder, InRange};

use steps::{Flag, Go, Place, Record, Size, Step};

/// A discipline (a mutual exclusion algorithm) means its step table. Its laws are over all histories of calls.
pub trait Discipline {
    /// The lines of a station.
    const PER_STATION: usize;

    /// The same, in what is proved.
    ghost PER_STATION: { ℕ };

    /// The places at which a station may stand, by name.
    type Place: Place;

    /// The whole meaning of the discipline.
    ghost table: { Table };

    /// Where a line is on the board; none for a line that no station has.
    fn number(size: Size, flag: Flag) -> Option<usize>
        ensures { result ≡ table.number size.stations flag };

    /// The place at which a hold of the merge is granted, as the number that a record keeps.
    fn grant() -> u8
        ensures { result ≡ table.grant };

    /// The record after a start.
    fn start(size: Size, s: Record) -> Record
        ensures { result ≡ table.starts size.stations s };

    /// The lines of a station.
    fn lines() -> usize
        ensures { result ≡ table.per }
    {
        Self::PER_STATION
    }

    /// The place of a number.
    fn place(number: u8) -> Self::Place
        ensures { result ≡ Self.Place.viewed number }
    {
        Self::Place::at(number)
    }

    /// The number of a place.
    fn label(place: Self::Place) -> u8
        ensures { result ≡ Self.Place.numbered place }
    {
        place.label()
    }

    /// The line that a go reads.
    #[inline(always)]
    fn look(step: Step) -> Option<Flag>
        ensures { result ≡ table.looks step.size.stations step.station step.rec step.pick }
    {
        Self::Place::at(step.rec.place).look(step)
    }

    /// What that go does after this reading.
    #[inline(always)]
    fn go(step: Step, high: bool) -> Go
        ensures { result ≡ table.goes step.size.stations step.station step.rec step.pick high }
    {
        Self::Place::at(step.rec.place).go(step, high)
    }

    // The table is of so many lines, and its rows are those of the places.
    ghost per: { table.per ≡ PER_STATION };

    ghost looks: { (N p : ℕ) (s : Record) (k : ℕ) → table.looks N p s k ≡ Self.Place.reads (Self.Place.viewed s.place) N p s k };

    ghost goes: { (N p : ℕ) (s : Record) (k : ℕ) (high : Bool) → table.goes N p s k high ≡ Self.Place.does (Self.Place.viewed s.place) N p s k high };

    ghost apart: { LinesApart table };

    ghost holder: { OneHolder table };

    ghost moving: { NeverStuck table };

    ghost ranged: { InRange table (λ n. Self.Place.numbered (Self.Place.viewed n)) };
}

/// A discipline that is first come, first served: no station holds the merge while another is ahead of it.
pub trait FairDiscipline: Discipline {
    /// The first and the last place from which a station is ahead of those that start then, as the numbers that a record keeps.
    fn ahead_places() -> (u8, u8)
        ensures places { result ≡ (25, 37) }
        ensures order { InOrder Self.table };

    // The same as a law, for generic code that has no use for the places.
    ghost fair: { InOrder Self.table };
}
