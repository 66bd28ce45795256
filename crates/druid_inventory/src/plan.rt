//! What a reply makes of an entry.
ghost use Rattle.std.specs.Prelude.{◌≡◌};
ghost use Rattle.druid_inventory.specs.Plan.{outcome_of};

use crate::Outcome;
use druid_segment_descriptor::{Change, Descriptor, Mark};

// What becomes of an entry.
#[derive(Clone, Copy)]
pub(crate) enum Plan<'a> {
    // It moves to a mark, by changes of its set.
    Replay(Mark, &'a [Change]),
    // It moves to a mark, and has this set there.
    Replace(Mark, &'a [Descriptor]),
    // It stays.
    Stay(Outcome),
}

impl Plan<'_> {
    // The outcome of the reply.
    pub(crate) fn outcome(&self) -> Outcome
        ensures { result ≡ outcome_of self.now }
    {
        match self {
            Plan::Replay(_, _) => Outcome::Moved,
            Plan::Replace(_, _) => Outcome::Moved,
            Plan::Stay(outcome) => *outcome,
        }
    }
}
