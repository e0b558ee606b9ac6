//! A place of a station, by name.
ghost use Rattle.std.specs.Prelude.{◌≡◌, ℕ, Bool, Option};
ghost use Rattle.steps.specs.declared.record.Record.{Record};
ghost use Rattle.steps.specs.declared.lines.Flag.{Flag};
ghost use Rattle.steps.specs.declared.go.Go.{Go};

use crate::go::Go;
use crate::lines::Flag;
use crate::step::Step;

/// A place at which a station of a discipline may stand (the program label): what a go reads and does there.
pub trait Place {
    /// The number of a place.
    ghost numbered: { Self → ℕ };

    /// The place of a number; a number that is no place stands for the idle one.
    ghost viewed: { ℕ → Self };

    /// Of so many stations, of this station with this record and pick: the line that a go reads.
    ghost reads: { Self → ℕ → ℕ → Record → ℕ → Option Flag };

    /// Of so many stations, of this station with this record, pick and reading: what a go does.
    ghost does: { Self → ℕ → ℕ → Record → ℕ → Bool → Go };

    /// The number of the place.
    fn label(self) -> u8
        ensures { result ≡ numbered self };

    /// The place of a number.
    // No `TryFrom`, as every number has a place; no `From<u8>`, as then a law would have to tie what it gives to `viewed`.
    fn at(number: u8) -> Self
        ensures { result ≡ viewed number };

    /// The line that a go reads.
    fn look(self, step: Step) -> Option<Flag>
        ensures { result ≡ reads self step.size.stations step.station step.rec step.pick };

    /// What a go does after this reading.
    fn go(self, step: Step, high: bool) -> Go
        ensures { result ≡ does self step.size.stations step.station step.rec step.pick high };

    /// The number of a place leads back to it.
    ghost back: { (x : Self) → viewed (numbered x) ≡ x };
}
