//! Junctions over the odd board. All that is known of the board is its meaning and that it is lawful; what a junction
//! promises over every list of calls follows from that, and nothing is proved of them here.
ghost use Rattle.std.specs.Prelude.{◌≡◌, List};
ghost use Rattle.steps.specs.FourLine.{four_line};
ghost use Rattle.steps.specs.Plain.{plain};
ghost use Rattle.junction.specs.Making.{new_junction};
ghost use Rattle.junction.specs.Promise.{Call, SafeMerge, ServedInOrder};
ghost use Rattle.odd_board.specs.Odd.{odd, new_odd};

use crate::board::OddBoard;
use disciplines::{FourLine, Plain};
use junction::Junction;

/// A four-line junction over a new odd board: one station at most holds the merge, the stations are never stuck, and the
/// first come is first served.
pub fn made_over_odd(stations: usize, name: u32) -> Junction<FourLine, OddBoard>
    ensures made { result ≡ new_junction four_line odd (record {}) stations name new_odd }
    ensures safe { (calls : List Call) → SafeMerge four_line odd result calls }
    ensures order { (calls : List Call) → ServedInOrder four_line odd result calls }
{
    Junction::make_fair(FourLine, stations, name, OddBoard::new())
}

/// A plain junction over a new odd board: one station at most holds the merge, and the stations are never stuck.
pub fn plain_over_odd(stations: usize, name: u32) -> Junction<Plain, OddBoard>
    ensures made { result ≡ new_junction plain odd (record {}) stations name new_odd }
    ensures safe { (calls : List Call) → SafeMerge plain odd result calls }
{
    Junction::make(Plain, stations, name, OddBoard::new())
}
