//! Three stations share a merge over a noisy board: a drill of the calls that a junction offers.
#![tactic(auto)]

mod compete;
mod passes;
mod picks;
mod tell;

use boards::{Board, Tape};
use compete::{STATIONS, compete, recover};
use disciplines::{Discipline, FourLine};
use junction::Junction;
use passes::{take_and_fail, take_and_leave};
use std::io;
use tell::{tell, tell_holder, tell_place, tell_totals};

/// The lines of the stations.
const LINES: usize = STATIONS * FourLine::PER_STATION;

/// The name of the junction.
const NAME: u32 = 7;

/// The goes that are given at most until a station is on the merge, or back from a failure.
const BUDGET: usize = 200;

// All stations start. One of them starts twice, and one is not there.
fn start_all<D: Discipline, B: Board>(rt: &impl Print, j: &mut Junction<D, B>) -> io::Result<()> {
    for p in 0..STATIONS {
        tell(rt, "start", p, j.start(p))?;
    }
    tell(rt, "start", 0, j.start(0))?;
    tell(rt, "start", STATIONS, j.start(STATIONS))
}

// The stations compete, and the one that comes to the merge leaves it in good order.
fn hold_and_leave<D: Discipline, B: Board>(
    rt: &impl Print,
    j: &mut Junction<D, B>,
    among: &[usize],
) -> io::Result<()> {
    if let Some(p) = compete(rt, j, among, BUDGET)? {
        tell_holder(rt, j)?;
        tell(rt, "go", p, j.go(p, 0))?;
        tell(rt, "pass", p, take_and_leave(j, p))?;
        tell(rt, "go", p, j.go(p, 0))?;
    }
    tell_holder(rt, j)
}

// The stations compete, and the one that comes to the merge fails there. Then its lines are stirred.
fn hold_and_fail<D: Discipline, B: Board>(
    rt: &impl Print,
    j: &mut Junction<D, B>,
    among: &[usize],
) -> io::Result<Option<usize>> {
    let arrived = compete(rt, j, among, BUDGET)?;
    if let Some(p) = arrived {
        tell(rt, "pass", p, take_and_fail(j, p))?;
        tell(rt, "fail", p, j.fail(p))?;
        tell(rt, "stir", p, j.stir(p))?;
        tell_place(rt, j, p)?;
    }
    tell_holder(rt, j)?;
    Ok(arrived)
}

// The whole drill.
fn drill<D: Discipline, B: Board>(rt: &impl Print, j: &mut Junction<D, B>) -> io::Result<()> {
    start_all(rt, j)?;
    // Station 1 stays where it opens its door, and the door is loose: the others read it as the noise has it.
    tell(rt, "stir", 1, j.stir(1))?;
    hold_and_leave(rt, j, &[0, 2, 0])?;
    // Station 0 comes again.
    tell(rt, "start", 0, j.start(0))?;
    let failed = hold_and_fail(rt, j, &[0, 1, 2])?;
    // The failed station rests while the others are served.
    hold_and_leave(rt, j, &[0, 1, 0])?;
    hold_and_leave(rt, j, &[0, 1, 0])?;
    if let Some(p) = failed {
        if recover(j, p, BUDGET) {
            tell_place(rt, j, p)?;
        }
        tell(rt, "stir", p, j.stir(p))?;
    }
    tell_totals(rt, j)
}

fn main(rt: HostRuntime) -> io::Result<()> {
    let noise = [0x6d, 0x1b, 0xf0];
    let mut j = Junction::make_fair(FourLine, STATIONS, NAME, Tape::new(LINES, &noise));
    drill(&rt, &mut j)
}
