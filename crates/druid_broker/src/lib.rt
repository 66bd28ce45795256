//! The front of a broker: what it answers over HTTP.
#![tactic(auto)]

mod exchange;
mod inventory_response;
mod query_response;
mod question;
mod response;
mod routes;

pub use exchange::serve_one;
pub use routes::Routes;
