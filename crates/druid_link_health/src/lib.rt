//! Which nodes failed lately: noted of each exchange, remembered without a lock, and asked before
//! each query. A node that ails is asked last, and after each pause one query tries it in its turn,
//! so that one that hangs holds about one worker at a time.
#![tactic(auto)]

mod ceiling;
mod clock;
mod counts;
mod health;
mod mark;
mod monitored_link;
mod span;
mod standing;

pub use ceiling::{Ceiling, Oversize};
pub use clock::monotonic_millis;
pub use counts::{Counts, FAULTS};
pub use health::{Health, LEAST_PAUSE, MAX_NODES, Snapshot};
pub use monitored_link::MonitoredLink;
pub use standing::{Asker, Standing};
