//! How far a node's history was followed.
ghost use Rattle.std.specs.Prelude.{◌≡◌, ◌↔◌, Some, refl, IsTrue};
ghost use Rattle.druid_segment_descriptor.specs.Mark.{never, same_mark, mark_cmp};
ghost use Rattle.druid_segment_descriptor.specs.Orders as orders;

use std::cmp::Ordering;
use std::marker::Model;

/// How far a node's history has been followed: the incarnation of the node, and the number of its changes.
/// Marks are ordered by incarnation, and then by count. (0, 0) is never synced.
#[derive(Clone, Copy, Debug, Hash)]
pub struct Mark {
    incarnation: u64,
    count: u64,
}

impl Model for Mark {
    ghost use Rattle.druid_segment_descriptor.specs.Mark.{Point};

    ghost Value = { Point };

    ghost view = { λ a. record { incarnation = a.incarnation; count = a.count } };

    ghost inverse = { λ p. record { incarnation = p.incarnation; count = p.count } };
}

impl Mark {
    /// The mark after that many changes of an incarnation.
    pub fn new(incarnation: u64, count: u64) -> Mark
        ensures { result ≡ record { incarnation = incarnation; count = count } }
    {
        Mark { incarnation, count }
    }

    /// The mark of a node that was never synced.
    pub fn never() -> Mark
        ensures { result ≡ never }
    {
        Mark::new(0, 0)
    }

    /// The incarnation; a node's are at least 1.
    pub fn incarnation(&self) -> u64
        ensures { result ≡ self.now.incarnation }
    {
        self.incarnation
    }

    /// The number of changes.
    pub fn count(&self) -> u64
        ensures { result ≡ self.now.count }
    {
        self.count
    }
}

impl PartialEq for Mark {
    ghost eq = { same_mark };

    ghost laws = { orders.same_mark-per };

    fn eq(&self, other: &Mark) -> bool
        ensures value { result ≡ same_mark self.now other.now }
        ensures same { IsTrue result ↔ (self.now ≡ other.now) }
    {
        self.incarnation == other.incarnation && self.count == other.count
    }
}

impl Eq for Mark {
    ghost laws = { orders.same_mark-equiv };
}

impl PartialOrd for Mark {
    ghost partial_cmp = { λ a b. Some (mark_cmp a b) };

    ghost laws = { orders.mark_cmp-po };

    fn partial_cmp(&self, other: &Mark) -> Option<Ordering> {
        Some(self.cmp(other))
    }
}

impl Ord for Mark {
    ghost cmp = { mark_cmp };

    ghost total = { orders.mark_cmp-total };

    ghost matches_partial_cmp = { λ a b. refl };

    ghost matches_eq = { orders.mark_cmp-ties };

    fn cmp(&self, other: &Mark) -> Ordering {
        let incarnation = self.incarnation.cmp(&other.incarnation);
        incarnation.then(self.count.cmp(&other.count))
    }
}
