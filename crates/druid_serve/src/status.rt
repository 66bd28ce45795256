//! What a broker tells at its status address.
ghost use Rattle.std.specs.Prelude.{◌≡◌, true};

use druid_link_health::{Counts, FAULTS, Health};
use druid_segment_descriptor::NodeNo;
use druid_serve_base::{Status, Telemetry};
use druid_telemetry_metrics::{FollowMeter, Followed, broker_page};
use std::alloc::{AllocError, Global};
use std::sync::Arc;

/// A node that a broker follows: its name, and what its syncer counts.
#[derive(Drop)]
pub(crate) struct FollowedNode {
    pub(crate) name: String,
    pub(crate) meter: Arc<FollowMeter, Global>,
}

/// What a broker tells of itself and of the nodes that it follows, in the order of their numbers.
#[derive(Drop)]
pub(crate) struct BrokerStatus {
    pub(crate) telemetry: Telemetry,
    pub(crate) nodes: Arc<Vec<FollowedNode>, Global>,
    pub(crate) health: Arc<Health, Global>,
}

// How exchanges ended, in the order in which metrics have their ends: those that gave bytes, and those that failed from X1 to X9.
fn ends_of(alloc: Global, counts: Option<Counts>) -> Result<Vec<u64>, AllocError> {
    let mut ends = Vec::with_capacity(alloc, FAULTS + 1)?;
    if let Some(counts) = counts {
        ends.push(counts.succeeded)?;
        for failed in counts.failed {
            ends.push(failed)?;
        }
    }
    Ok(ends)
}

impl BrokerStatus {
    // What was counted of each node.
    fn followed(&self, alloc: Global) -> Result<Vec<Followed<'_>>, AllocError> {
        let mut followed = Vec::with_capacity(alloc, self.nodes.len())?;
        let mut number: NodeNo = 0;
        for node in self.nodes.iter() {
            let ends = ends_of(alloc, self.health.counts(number))?;
            followed.push(node.meter.read(alloc, node.name.as_str(), ends)?)?;
            number = number.saturating_add(1);
        }
        Ok(followed)
    }
}

impl Status for BrokerStatus {
    ghost follows = { true };

    fn metrics(&self, alloc: Global) -> Result<Vec<u8>, AllocError> {
        let readings = self.telemetry.read(alloc)?;
        let followed = self.followed(alloc)?;
        broker_page(alloc, self.telemetry.name(), &readings, &followed)
    }

    fn is_loaded(&self) -> Option<bool> {
        Some(self.nodes.iter().all(|node| node.meter.is_synced()))
    }
}
