//! Queries spread over data nodes: plans, orders of replicas, and what is gathered.
#![tactic(auto)]

mod answer;
mod exchange;
mod fault;
mod gathering;
mod laws;
mod pairs;
mod pending;
mod pick;
mod query_plan;
mod requests;
mod scatter;

pub use druid_partial::Answer;
pub use fault::GatherFault;
pub use laws::{gathered_rows_are_exact, none_ailing_is_rotate, one_plan, plans_may_be_asked};
pub use pairs::{Pair, Plan};
pub use pick::{AilingLast, Pick, Rotate};
pub use query_plan::plan;
pub use scatter::gather;
