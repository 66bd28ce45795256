//! What stands between a server and those who connect to it: threads that wait for clients, so that
//! a worker never does. Each holds one connection, also while it waits for a worker: so memory has
//! a bound that a config names, an answer goes back the way its request came, and no readiness of
//! sockets (`epoll`) is trusted.
#![tactic(auto)]

mod connection_end;
mod front;
mod jobs;
mod request;
mod seats;

pub use connection_end::{CLOSING_SECONDS, MAX_CLOSING, close_answered};
pub use front::{Connection, Front, Place, open};
pub use jobs::{Job, Jobs, answer_jobs};
pub use request::{ANSWER_SECONDS, HEAD_SECONDS, REQUEST_SECONDS};
pub use seats::{GRACE, Seat, Seats};
