//! Who goes next: the stations take turns.
ghost use Rattle.std.specs.Prelude.{◌≡◌, ◌↔◌, IsTrue, Some, IfSome, IfOk};
ghost use Rattle.junction.specs.Telling.{place_at};

use crate::picks::step;
use boards::Board;
use disciplines::Discipline;
use junction::Junction;
use std::io;
use steps::{IDLE, MERGING, Outcome};

/// The stations of the drill.
pub(crate) const STATIONS: usize = 3;

// Goes for these stations in turn, until one has arrived on the merge or so many goes were given.
pub(crate) fn compete<D: Discipline, B: Board>(
    rt: &impl Print,
    j: &mut Junction<D, B>,
    among: &[usize],
    budget: usize,
) -> io::Result<Option<usize>>
    ensures { IfOk result (λ o. IfSome o (λ p. place_at j.new p ≡ Some MERGING)) }
{
    let mut waits: usize = 0;
    for (i, &p) in among.iter().cycle().take(budget).enumerate() {
        let before = j.totals().grants;
        if step(j, p) == Ok(Outcome::Waits) {
            waits += 1;
        }
        if before < j.totals().grants {
            println!(rt; "station {p} is granted the merge")?;
        }
        if j.place(p) == Some(MERGING) {
            let steps = i + 1;
            println!(rt; "station {p} is on the merge: {steps} steps, of which {waits} waited")?;
            return Ok(Some(p));
        }
    }
    Ok(None)
}

// Goes for one station, until it is idle again or so many were given. Tells whether it is.
pub(crate) fn recover<D: Discipline, B: Board>(
    j: &mut Junction<D, B>,
    p: usize,
    budget: usize,
) -> bool
    ensures { IsTrue result ↔ (place_at j.new p ≡ Some IDLE) }
{
    for _ in 0..budget {
        if j.place(p) == Some(IDLE) {
            return true;
        }
        let _ = step(j, p);
    }
    j.place(p) == Some(IDLE)
}
