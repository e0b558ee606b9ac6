//! Schedules: bytes that tell a discipline, a number of stations, the events to play and the noise of a tape.
#![tactic(auto)]

mod discipline;
mod event;
mod events;
mod read;
mod refusal;
mod view;

pub use discipline::DisciplineKind;
pub use event::Event;
pub use events::Events;
pub use numbers::Numbered;
pub use read::parse;
pub use refusal::Refusal;
pub use view::Schedule;
