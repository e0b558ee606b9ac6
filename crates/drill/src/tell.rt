//! The drill's lines.
use boards::Board;
use disciplines::Discipline;
use junction::Junction;
use numbers::Numbered;
use std::{fmt, io};
use steps::Refusal;

// What came of a call of a station, or of its pass; a refusal by its number.
pub(crate) fn tell<T: fmt::Display + Copy>(
    rt: &impl Print,
    call: &str,
    p: usize,
    answer: Result<T, Refusal>,
) -> io::Result<()> {
    match answer {
        Ok(done) => println!(rt; "{call} of station {p}: {done}"),
        Err(refusal) => println!(rt; "{call} of station {p}: refused, {}", refusal.number()),
    }
}

// An Option is told by a line for each arm: a Display would need a type of our own around it.
pub(crate) fn tell_holder<D: Discipline, B: Board>(
    rt: &impl Print,
    j: &Junction<D, B>,
) -> io::Result<()> {
    match j.holder() {
        Some(p) => println!(rt; "holder: station {p}"),
        None => println!(rt; "holder: none"),
    }
}

pub(crate) fn tell_place<D: Discipline, B: Board>(
    rt: &impl Print,
    j: &Junction<D, B>,
    p: usize,
) -> io::Result<()> {
    match j.place(p) {
        Some(place) => println!(rt; "station {p} stands at {place}"),
        None => println!(rt; "station {p} is not there"),
    }
}

pub(crate) fn tell_totals<D: Discipline, B: Board>(
    rt: &impl Print,
    j: &Junction<D, B>,
) -> io::Result<()> {
    let totals = j.totals();
    println!(rt;
        "totals: {} grants, {} ends, {} rounds",
        totals.grants, totals.ends, totals.rounds
    )
}
