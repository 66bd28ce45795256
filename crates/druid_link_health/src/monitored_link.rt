//! Links whose exchanges are noted.
ghost use Rattle.std.specs.Prelude.{◌≡◌};

use crate::ceiling::ceiling_in;
use crate::span::{Span, is_late};
use crate::{Asker, Health, monotonic_millis};
use druid_http_message::WireFault;
use druid_link::Link;
use std::alloc::Global;
use std::marker::Model;
use std::sync::Arc;
use std::time::Clock;

/// A link to a node, which notes how each of its exchanges ended, and which met a limit of 16 MiB. Its exchanges are those of the link inside, which may take as long
/// as the health's patience. One that the deadline of a hastened link cut short is counted, and says nothing of the node.
#[derive(Drop)]
pub struct MonitoredLink<L: Link, C: Clock> {
    link: L,
    clock: C,
    node: u16,
    asker: Asker,
    // By when the exchanges are to end, in the clock's milliseconds, where the link was hastened.
    deadline: Option<u64>,
    health: Arc<Health, Global>,
}

impl<L: Link, C: Clock> Model for MonitoredLink<L, C> {
    ghost use Rattle.druid_link_health.specs.Monitored.{Monitored};

    ghost Value = { Monitored L };

    ghost view = { λ a. record { link = a.link; node = a.node } };
}

impl<L: Link, C: Clock> MonitoredLink<L, C> {
    /// The link to a node, whose exchanges are noted as that node's, for who makes them, at the clock's time.
    pub fn new(
        link: L,
        clock: C,
        node: u16,
        asker: Asker,
        health: Arc<Health, Global>,
    ) -> MonitoredLink<L, C>
        ensures { result ≡ record { link = link; node = node } }
    {
        MonitoredLink {
            link,
            clock,
            node,
            asker,
            deadline: None,
            health,
        }
    }

    /// The link inside.
    pub fn link(&self) -> &L
        ensures { result.now ≡ self.now.link }
    {
        &self.link
    }

    // Notes an exchange that began and ended then.
    fn note(&self, ended: Result<(), WireFault>, span: Span) {
        if is_late(ended) && span.is_cut(self.health.patience()) {
            self.health.note_cut(self.node, ended);
        } else {
            self.health.note(self.node, self.asker, ended, span.ended);
        }
    }

    // Notes the limit that an exchange met, if it met one.
    fn note_ceiling(&self, came: &Result<Vec<u8>, WireFault>) {
        if let Ok(bytes) = came
            && let Some(ceiling) = ceiling_in(bytes)
        {
            self.health.note_ceiling(self.node, ceiling);
        }
    }
}

// How an exchange ended, without its bytes.
fn ended(came: &Result<Vec<u8>, WireFault>) -> Result<(), WireFault> {
    match came {
        Ok(_) => Ok(()),
        Err(fault) => Err(*fault),
    }
}

impl<L: Link, C: Clock> Link for MonitoredLink<L, C> {
    ghost exchanges = { λ before request came after. L.exchanges before.link request came after.link };

    ghost faults = { λ link. L.faults link.link };

    fn exchange(&mut self, alloc: Global, request: &[u8]) -> Result<Vec<u8>, WireFault> {
        let began = monotonic_millis(&self.clock);
        let came = self.link.exchange(alloc, request);
        let span = Span {
            began,
            ended: monotonic_millis(&self.clock),
            deadline: self.deadline,
        };
        self.note(ended(&came), span);
        self.note_ceiling(&came);
        came
    }

    fn hasten(&mut self, millis: Option<u64>) {
        self.deadline = match millis {
            Some(millis) => Some(monotonic_millis(&self.clock).saturating_add(millis)),
            None => None,
        };
        self.link.hasten(millis);
    }

    fn faults(&self) -> u64 {
        self.link.faults()
    }
}
