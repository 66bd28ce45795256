//! What a node tells of the files of its folder, in lines of the log, and of its state.
use druid_node::NodeFault;
use druid_serve_base::Telemetry;
use druid_telemetry_log::{Event, Level, Refusals, code_in};
use druid_telemetry_metrics::{NodeMeter, NodeState};
use std::alloc::{AllocError, Global};
use std::sync::{Arc, Wait};
use std::time::Clock;

/// Tells of each file that a node loads, refuses or lets go of, and notes the node's state. What is logged or noted no contract speaks
/// of: queues and cells are not values.
#[derive(Drop)]
pub struct Reporter {
    alloc: Global,
    telemetry: Telemetry,
    meter: Arc<NodeMeter, Global>,
    refusals: Refusals,
}

impl Reporter {
    /// One that has told nothing.
    ///
    /// # Errors
    ///
    /// Out of memory.
    pub fn new(
        alloc: Global,
        telemetry: Telemetry,
        meter: &Arc<NodeMeter, Global>,
    ) -> Result<Reporter, AllocError> {
        Ok(Reporter {
            alloc,
            telemetry,
            meter: Arc::try_clone(meter)?,
            refusals: Refusals::new(alloc),
        })
    }

    fn emit<R: Wait + Clock>(&self, rt: &R, event: &Event<'_>) {
        self.telemetry.emit(rt, self.alloc, event);
    }

    // The segment of a file was loaded.
    pub(crate) fn load<R: Wait + Clock>(&mut self, rt: &R, name: &str) {
        self.refusals.forget(name);
        self.emit(rt, &Event::Loaded { file: name });
    }

    // A file was refused: it is logged once for each fault, and not where memory runs out for it.
    pub(crate) fn refuse<R: Wait + Clock>(&mut self, rt: &R, name: &str, fault: &NodeFault) {
        if self.telemetry.level() == Level::Off {
            return;
        }
        let Ok(text) = format!(in self.alloc; "{fault}") else {
            return;
        };
        let code = code_in(text.as_str());
        if let Ok(true) = self.refusals.refuse(name, code) {
            self.emit(rt, &Event::Refused { file: name, code });
        }
    }

    // A file that is gone was let go of, and its segment was dropped, if one was loaded.
    pub(crate) fn let_go<R: Wait + Clock>(&mut self, rt: &R, name: &str, was_loaded: bool) {
        self.refusals.forget(name);
        if was_loaded {
            self.emit(rt, &Event::Dropped { file: name });
        }
    }

    // Notes the state of the node.
    pub(crate) fn note(&self, state: &NodeState) {
        self.meter.note(state);
    }
}
