//! Junctions over the odd board, as a caller meets them.
use crate::board::OddBoard;
use crate::made::{made_over_odd, plain_over_odd};
use boards::Board;
use disciplines::Discipline;
use junction::Junction;
use numbers::Numbered;
use std::process::Abort;

// A go that is to be accepted.
fn accepted<D: Discipline, B: Board>(
    rt: &impl Abort,
    j: &mut Junction<D, B>,
    p: usize,
    pick: usize,
) {
    assert_eq!(rt; j.go(p, pick).number(), 0);
}

// From a start to place 24: the door, the four turns of two stations, of which the third is looked at second.
fn copy_turns<D: Discipline, B: Board>(rt: &impl Abort, j: &mut Junction<D, B>, p: usize) {
    assert_eq!(rt; j.start(p).number(), 0);
    accepted(rt, j, p, 0);
    accepted(rt, j, p, 0);
    accepted(rt, j, p, 2);
    accepted(rt, j, p, 1);
    accepted(rt, j, p, 3);
    accepted(rt, j, p, 0);
    assert_eq!(rt; j.place(p), Some(24));
}

// A loose turn is read sixth and is high; read ninth, it is low, and the station goes on.
#[test]
fn a_loose_line_is_high_at_every_second_read(rt: HostRuntime) {
    let mut j = made_over_odd(2, 7);
    copy_turns(&rt, &mut j, 1);
    assert_eq!(rt; j.stir(1).number(), 0);
    copy_turns(&rt, &mut j, 0);
    accepted(&rt, &mut j, 0, 0);
    accepted(&rt, &mut j, 0, 0);
    accepted(&rt, &mut j, 0, 2);
    assert_eq!(rt; j.place(0), Some(27));
    accepted(&rt, &mut j, 0, 0);
    accepted(&rt, &mut j, 0, 0);
    assert_eq!(rt; j.place(0), Some(28));
}

#[test]
fn a_lone_plain_station_is_granted_the_merge(rt: HostRuntime) {
    let mut j = plain_over_odd(3, 7);
    assert_eq!(rt; j.start(0).number(), 0);
    for pick in [0, 0, 1, 0, 2, 0] {
        accepted(&rt, &mut j, 0, pick);
    }
    assert_eq!(rt; j.holder(), None);
    accepted(&rt, &mut j, 0, 0);
    assert_eq!(rt; j.holder(), Some(0));
    assert_eq!(rt; j.totals().grants, 1);
}

#[test]
fn five_stations_want_more_lines(rt: HostRuntime) {
    let mut j = made_over_odd(5, 7);
    assert_eq!(rt; j.start(0).number(), 3);
    let board = OddBoard::new();
    assert_eq!(rt; board.count(), 16);
}
