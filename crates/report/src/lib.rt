//! The lines of a report, each as its bytes.
#![tactic(auto)]

mod digits;
mod lines;

pub use lines::{end_line, event_line, refusal_line};
