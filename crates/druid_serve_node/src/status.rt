//! What a node tells at its status address.
ghost use Rattle.std.specs.Prelude.{◌≡◌, false};

use druid_serve_base::{Status, Telemetry};
use druid_telemetry_metrics::{NodeMeter, node_page};
use std::alloc::{AllocError, Global};
use std::sync::Arc;

/// What a node tells of itself and of what it holds.
#[derive(Drop)]
pub(crate) struct NodeStatus {
    pub(crate) telemetry: Telemetry,
    pub(crate) meter: Arc<NodeMeter, Global>,
}

impl Status for NodeStatus {
    ghost follows = { false };

    fn metrics(&self, alloc: Global) -> Result<Vec<u8>, AllocError> {
        let readings = self.telemetry.read(alloc)?;
        node_page(alloc, self.telemetry.name(), &readings, &self.meter.read())
    }

    fn is_loaded(&self) -> Option<bool> {
        None
    }
}
