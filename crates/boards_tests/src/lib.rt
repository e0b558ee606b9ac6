//! Tests of the boards, in a crate of their own so that the boards are proved once.
#![tactic(auto)]

#[cfg(test)]
mod tests;
