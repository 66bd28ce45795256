//! The turns with a node.
use druid_broker_follow::{Marks, Observe, TurnFault, Turned};
use druid_inventory::Outcome;
use druid_segment_descriptor::Mark;
use druid_telemetry_log::{Event, Fall, Log, Outage, Report, code_in, now};
use druid_telemetry_metrics::FollowMeter;
use std::alloc::Global;
use std::sync::{Arc, Wait};
use std::time::Clock;

/// Counts each turn of a broker with a node by how it ended, notes the mark that is held then and when the node was heard, and tells
/// of a node that can't be followed, once as it begins and once as it ends, and of one whose mark fell.
#[derive(Drop)]
pub struct TurnWatcher<R: Wait + Clock + Drop> {
    rt: R,
    alloc: Global,
    // The names of the broker and of the node.
    server: String,
    node: String,
    log: Arc<Log, Global>,
    meter: Arc<FollowMeter, Global>,
    outage: Outage,
    fall: Fall,
}

// The mark that is held of a node after a turn: the one that its reply shows where it was applied, and else the one from before.
fn held_after(marks: &Marks, outcome: &Result<Outcome, TurnFault>) -> Mark {
    match outcome {
        Ok(Outcome::Moved) => marks.shown,
        _ => marks.held,
    }
}

// The mark that a node shows below the one that is held of it.
fn fallen(marks: &Option<Marks>) -> Option<Mark> {
    match marks {
        Some(marks) => {
            if marks.fell() {
                Some(marks.shown)
            } else {
                None
            }
        }
        None => None,
    }
}

impl<R: Wait + Clock + Drop> TurnWatcher<R> {
    /// The watcher of the turns of that broker with that node, by their names. A log and a meter are no values, so no contract says what
    /// it tells.
    pub fn new(
        rt: R,
        alloc: Global,
        server: String,
        node: String,
        log: Arc<Log, Global>,
        meter: Arc<FollowMeter, Global>,
    ) -> TurnWatcher<R> {
        TurnWatcher {
            rt,
            alloc,
            server,
            node,
            log,
            meter,
            outage: Outage::new(),
            fall: Fall::new(),
        }
    }

    // Counts a turn, and notes the mark that is held then and when the node was heard.
    fn count(&self, turned: &Turned) {
        self.meter.turn(turned.end());
        if let Some(marks) = &turned.marks {
            let mark = held_after(marks, &turned.outcome);
            self.meter.hold(mark.incarnation(), mark.count());
        }
        if turned.outcome.is_ok() {
            self.meter
                .hear(u64::try_from(now(&self.rt).ms()).unwrap_or(0));
        }
    }

    fn emit(&self, event: &Event<'_>) {
        self.log
            .emit(&self.rt, self.alloc, self.server.as_str(), event);
    }

    // Tells that the node can't be followed; of no code where memory runs out for it.
    fn emit_lost(&self, outcome: &Result<Outcome, TurnFault>) {
        let Err(fault) = outcome else {
            return;
        };
        let text = format!(in self.alloc; "{fault}");
        let code = match &text {
            Ok(text) => code_in(text.as_str()),
            Err(_) => "",
        };
        self.emit(&Event::Lost {
            node: self.node.as_str(),
            code,
        });
    }

    // Tells what is logged of a turn that failed or did not.
    fn emit_report(&self, report: Report, outcome: &Result<Outcome, TurnFault>) {
        match report {
            Report::Nothing => {}
            Report::Begins => self.emit_lost(outcome),
            Report::Ends(failed) => self.emit(&Event::Found {
                node: self.node.as_str(),
                failed,
            }),
        }
    }

    // Tells of a mark that fell.
    fn emit_fall(&self, marks: &Option<Marks>) {
        if let Some(marks) = marks {
            self.emit(&Event::Fell {
                node: self.node.as_str(),
                held: marks.held,
                shown: marks.shown,
            });
        }
    }
}

impl<R: Wait + Clock + Drop> Observe for TurnWatcher<R> {
    fn turn(&mut self, turned: &Turned) {
        self.count(turned);
        let report = self.outage.turn(turned.outcome.is_err());
        self.emit_report(report, &turned.outcome);
        // A turn without a reply says nothing of marks.
        if turned.marks.is_some() && self.fall.show(fallen(&turned.marks)) {
            self.emit_fall(&turned.marks);
        }
    }
}
