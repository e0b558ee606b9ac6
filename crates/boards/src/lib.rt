//! Boards of lines. A line is settled low, settled high, or loose (being written).
#![tactic(auto)]

mod board;
mod cell_board;
mod cells;
mod hold;
mod reader;
mod tape;

pub use board::{Board, Refused, known_line};
pub use hold::Hold;
pub use numbers::Numbered;
pub use tape::Tape;
