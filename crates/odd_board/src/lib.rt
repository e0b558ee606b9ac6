//! A board that neither the junction nor its proofs have seen, and a junction over it.
#![tactic(auto)]

mod board;
mod made;
#[cfg(test)]
mod tests;

pub use board::OddBoard;
pub use made::{made_over_odd, plain_over_odd};
