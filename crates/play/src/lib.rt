//! Plays a schedule on a junction, and writes its report.
#![tactic(auto)]

mod account;
mod entries;
mod event;
mod events;
mod whole;

pub use account::REPORT_BYTES;
pub use entries::{GrantEntry, RefusalEntry};
pub use whole::write_report;
