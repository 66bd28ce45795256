//! Visible pieces. Those of one chunk in one lookup share the list of its partitions.
ghost use Rattle.std.specs.Prelude.{◌≡◌, IfOk};

use druid_segment_id::GroupKey;
use druid_time::Interval;
use std::alloc::{AllocError, Global};
use std::marker::Model;
use std::sync::Arc;

/// Partition numbers, rising. Copies share one list. A contract sees a list.
#[derive(Debug, Drop)]
pub struct Partitions {
    items: Arc<Vec<u16>, Global>,
}

impl Model for Partitions {
    ghost use Rattle.std.specs.Prelude.{List, ℕ};
    ghost use Rattle.std.specs.Arc.{arc_value};

    ghost Value = { List ℕ };

    ghost view = { λ a. (arc_value a.items).items };
}

impl Partitions {
    /// These numbers, in this order.
    ///
    /// # Errors
    ///
    /// Out of memory.
    pub fn new(alloc: Global, items: Vec<u16>) -> Result<Partitions, AllocError>
        ensures { IfOk result (λ parts. parts ≡ items.items) }
    {
        Ok(Partitions {
            items: Arc::new(alloc, items)?,
        })
    }

    /// The numbers, borrowed.
    pub fn as_slice(&self) -> &[u16]
        ensures { result.now ≡ self.now }
    {
        self.items.as_slice()
    }
}

impl Clone for Partitions {
    ghost is_clone = { λ parts copy. copy ≡ parts };

    fn clone(&self) -> Result<Partitions, AllocError> {
        Ok(Partitions {
            items: Arc::try_clone(&self.items)?,
        })
    }
}

/// A stretch of time in which one chunk is visible, and the partitions of the chunk.
#[derive(Debug, Drop)]
pub struct Piece {
    interval: Interval,
    key: GroupKey,
    parts: Partitions,
}

impl Model for Piece {
    ghost use Rattle.druid_timeline.specs.Pieces.{Reported};

    ghost Value = { Reported };

    ghost view = { λ a. record { interval = a.interval; group = a.key; parts = a.parts } };
}

impl Piece {
    /// The piece of a chunk in an interval.
    pub fn new(interval: Interval, key: GroupKey, parts: Partitions) -> Piece
        ensures { result ≡ record { interval = interval; group = key; parts = parts } }
    {
        Piece {
            interval,
            key,
            parts,
        }
    }

    /// The stretch of time.
    pub fn interval(&self) -> Interval
        ensures { result ≡ self.now.interval }
    {
        self.interval
    }

    /// The chunk.
    pub fn key(&self) -> &GroupKey
        ensures { result.now ≡ self.now.group }
    {
        &self.key
    }

    /// All partitions of the chunk, rising.
    pub fn parts(&self) -> &[u16]
        ensures { result.now ≡ self.now.parts }
    {
        self.parts.as_slice()
    }
}
