//! What one step of a station is: its record, its lines by name, the rows of both disciplines, and what a call is answered.
#![tactic(auto)]

mod answers;
mod contest;
mod four_line;
mod go;
mod lines;
mod place;
mod places;
mod plain;
mod record;
mod size;
mod step;

pub use answers::{Outcome, Refusal, answer_number};
pub use contest::Contest;
pub use four_line::FourPlace;
pub use go::Go;
pub use lines::{Flag, Part};
pub use numbers::Numbered;
pub use place::Place;
pub use places::{FAILED, IDLE, MERGING, RELEASE};
pub use plain::PlainPlace;
pub use record::Record;
pub use size::Size;
pub use step::Step;
