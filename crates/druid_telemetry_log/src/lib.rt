//! What a cluster tells of itself, event by event: lines of JSON, and a queue that no one waits
//! for.
#![tactic(auto)]

mod code;
mod event;
mod level;
mod line;
mod outage;
mod refusals;
mod sink;

pub use code::code_in;
pub use event::Event;
pub use level::Level;
pub use line::line_of;
pub use outage::{Fall, Outage, Report};
pub use refusals::Refusals;
pub use sink::{Lines, Log, ROOM, now, open, write_lines};
