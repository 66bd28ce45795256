//! What a server counts of itself, and the text in which Prometheus reads it.
#![tactic(auto)]

mod counted_writer;
mod families;
mod family;
mod follow_meter;
mod meter;
mod node_meter;
mod page;
mod response;
mod route;
mod text;

pub use counted_writer::CountedWriter;
pub use families::{EXCHANGE_ENDS, Followed, NodeState, TURN_ENDS};
pub use family::{Bucket, Family, Histogram, Kind, Label, Number, Sample, Spread};
pub use follow_meter::{FollowMeter, end_place};
pub use meter::{BOUNDS, Counts, Meter, Readings, bucket_of, cell_of};
pub use node_meter::NodeMeter;
pub use page::{broker_page, node_page};
pub use response::metrics_response;
pub use route::{ROUTES, Route, STATUSES, route_of_head, status_place, status_text};
pub use text::render;
