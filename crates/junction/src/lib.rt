//! A junction: stations that share one merge, by a discipline, over a board.
#![tactic(auto)]

mod calls;
mod counts;
mod making;
mod pass;
mod passes;
mod state;
mod stations;
mod telling;
mod wires;

pub use counts::Totals;
pub use making::{Unfit, check_number};
pub use numbers::Numbered;
pub use pass::Pass;
pub use state::Junction;
pub use steps::{Outcome, Refusal};
