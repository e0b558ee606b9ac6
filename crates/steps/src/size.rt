//! How many stations a junction has.
ghost use Rattle.std.specs.Prelude.{◌≤◌};

/// The number of stations of a junction: at most sixteen. No call changes it, so the bound stands in a struct of its own.
#[derive(Clone, Copy, PartialEq, Eq, Debug)]
pub struct Size {
    pub stations: usize,
    ghost few: { stations ≤ 16 },
}
