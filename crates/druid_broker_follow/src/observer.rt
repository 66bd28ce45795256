//! What a turn showed, for whoever logs it or counts it. A fallen mark is seen by the marks and not
//! by the outcome: `AlreadyHave` is one of turns in which nothing happened, too.
ghost use Rattle.std.specs.Prelude.{◌≡◌, ◌↔◌, IsTrue, option_map, slice_get};
ghost use Rattle.std.specs.declared.cmp.Ordering.TheVariants.{Less};
ghost use Rattle.druid_segment_descriptor.specs.Mark.{mark_cmp};
ghost use Rattle.druid_broker_follow.specs.Shown.{shown_by, marks_at, turn_end};

use crate::TurnFault;
use druid_inventory::{Inventory, Outcome};
use druid_segment_descriptor::{Body, Mark, NodeNo, Reply};

/// The marks of a node in a turn.
#[derive(Clone, Copy, Debug, PartialEq, Eq, Drop)]
pub struct Marks {
    /// The one that was held of it when it was asked.
    pub held: Mark,
    /// The one that its reply shows.
    pub shown: Mark,
}

impl Marks {
    /// Whether the node shows a mark below the one that is held of it: then brokers keep what they hold, until it is above that again.
    pub fn fell(&self) -> bool
        ensures { IsTrue result ↔ (mark_cmp self.now.shown self.now.held ≡ Less) }
    {
        self.shown < self.held
    }
}

/// A turn, as it was made.
#[derive(Clone, Copy, Debug, PartialEq, Eq, Drop)]
pub struct Turned {
    /// What it gave.
    pub outcome: Result<Outcome, TurnFault>,
    /// The marks of the node, where it sent a reply.
    pub marks: Option<Marks>,
}

impl Turned {
    /// How it ended: what the reply made, `Moved`, `AlreadyHave`, `AskWhole` or `AskPages`, or the code of its fault, `K1` to `K9`.
    pub fn end(&self) -> &'static str
        ensures { result.now ≡ turn_end self.now.outcome }
    {
        match self.outcome {
            Ok(Outcome::Moved) => "Moved",
            Ok(Outcome::AlreadyHave) => "AlreadyHave",
            Ok(Outcome::AskWhole) => "AskWhole",
            Ok(Outcome::AskPages) => "AskPages",
            Err(TurnFault::Wire(_)) => "K1",
            Err(TurnFault::Reply(_)) => "K2",
            Err(TurnFault::Apply(_)) => "K3",
            Err(TurnFault::Status(_)) => "K4",
            Err(TurnFault::PageLost) => "K5",
            Err(TurnFault::NoReading) => "K6",
            Err(TurnFault::Memory) => "K9",
        }
    }
}

/// Who sees each turn as it is made.
pub trait Observe {
    /// Takes note of a turn.
    fn turn(&mut self, turned: &Turned);
}

/// Nobody sees the turns.
#[derive(Clone, Copy, Drop)]
pub struct Unobserved;

impl Observe for Unobserved {
    fn turn(&mut self, _turned: &Turned) {}
}

// The mark that a reply shows: that of the node once the reply is applied.
fn shown_by(reply: &Reply) -> Mark
    ensures { result ≡ shown_by reply.now }
{
    match reply.body() {
        Body::Delta { to, .. } => *to,
        Body::Snapshot { at, .. } => *at,
        Body::Page { at, .. } => *at,
        Body::Reset { at, .. } => *at,
    }
}

// The marks of a node that an inventory holds, once it sent a reply.
pub(crate) fn marks_at(inventory: &Inventory, node: NodeNo, reply: &Reply) -> Option<Marks>
    ensures { result ≡ marks_at inventory.now node reply.now }
{
    let held = inventory.mark(node)?;
    Some(Marks {
        held,
        shown: shown_by(reply),
    })
}
