//! Boards as a caller meets them.
use boards::{Board, Hold, Refused, Tape};
use numbers::Numbered;

#[test]
fn tape_takes_the_lowest_bit_first(rt: HostRuntime) {
    let noise = [0x05];
    let mut board = Tape::new(1, &noise);
    assert_eq!(rt; board.loosen(0), Ok(()));
    assert_eq!(rt; board.read(0), Ok(true));
    assert_eq!(rt; board.read(0), Ok(false));
    assert_eq!(rt; board.read(0), Ok(true));
}

#[test]
fn only_a_loose_read_takes_a_bit(rt: HostRuntime) {
    let noise = [0x01];
    let mut board = Tape::new(2, &noise);
    assert_eq!(rt; board.loosen(0), Ok(()));
    assert_eq!(rt; board.read(1), Ok(false));
    assert_eq!(rt; board.read(2), Err(Refused::NoLine));
    assert_eq!(rt; board.read(0), Ok(true));
}

#[test]
fn hold_answers_the_value_last_settled(rt: HostRuntime) {
    let mut board = Hold::new(2);
    assert_eq!(rt; board.settle(0, true), Ok(()));
    assert_eq!(rt; board.loosen(0), Ok(()));
    assert_eq!(rt; board.read(0), Ok(true));
    assert_eq!(rt; board.read(1), Ok(false));
}

#[test]
fn a_board_has_64_lines_at_most(rt: HostRuntime) {
    let mut board = Hold::new(65);
    assert_eq!(rt; board.count(), 64);
    assert_eq!(rt; board.read(64), Err(Refused::NoLine));
    assert_eq!(rt; Refused::NoLine.number(), 30);
}
