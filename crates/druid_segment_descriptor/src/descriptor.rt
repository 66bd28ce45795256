//! What a node announces of a segment.
ghost use Rattle.std.specs.Prelude.{◌≡◌, ◌≤◌, ◌<◌, ◌↔◌, Some, refl, false, true, IsTrue, SomeIff, IfSome};
ghost use Rattle.druid_segment_descriptor.specs.Described.{IsDescribed, same_described, described_cmp, max_core};
ghost use Rattle.druid_segment_descriptor.specs.Orders as orders;

use crate::limits::MAX_CORE;
use druid_segment_id::SegmentId;
use std::alloc::AllocError;
use std::cmp::Ordering;
use std::marker::Model;

/// A numbered shard spec: the partition of a segment in its chunk, and the number of core partitions of the chunk.
#[derive(Clone, Copy, Debug, PartialEq, Eq, Hash)]
pub struct Shard {
    partition: u16,
    core: u16,
}

impl Model for Shard {
    ghost use Rattle.std.specs.Prelude.{◌≤◌, ◌<◌};
    ghost use Rattle.druid_segment_descriptor.specs.Described.{Place, max_core};

    ghost Value = { Place };

    ghost view = { λ a. record { partition = a.partition; core = a.core } };

    ghost invariant = { λ a. a.core ≤ max_core };

    ghost inverse = { λ p. record { partition = p.partition; core = p.core } };
}

impl Shard {
    /// That partition of a chunk which has so many core partitions.
    ///
    /// # Errors
    ///
    /// None where there are more than 32,768 core partitions.
    pub fn new(partition: u16, core: u16) -> Option<Shard>
        ensures { SomeIff result (core ≤ max_core) (record { partition = partition; core = core }) }
    {
        if core <= MAX_CORE {
            Some(Shard { partition, core })
        } else {
            None
        }
    }

    /// The partition, from 0.
    pub fn partition(&self) -> u16
        ensures { result ≡ self.now.partition }
    {
        self.partition
    }

    /// The number of core partitions.
    pub fn core(&self) -> u16
        ensures value { result ≡ self.now.core }
        ensures valid { result ≤ max_core }
    {
        self.core
    }
}

/// What a node announces of a segment. Descriptors are ordered by their identifiers, and then by core count, size, and
/// whether they are tombstones.
///
/// A tombstone is a segment without a file and without rows, which overshadows what older versions have in its interval:
/// the whole of its chunk, in one partition of size 0.
#[derive(Debug, Drop)]
pub struct Descriptor {
    id: SegmentId,
    core: u16,
    size: u64,
    tombstone: bool,
}

impl Model for Descriptor {
    ghost use Rattle.druid_segment_descriptor.specs.Described.{Described, IsDescribed};

    ghost Value = { Described };

    ghost view = { λ a. record { id = a.id; core = a.core; size = a.size; tombstone = a.tombstone } };

    ghost invariant = { λ a. IsDescribed (record { id = a.id; core = a.core; size = a.size; tombstone = a.tombstone }) };
}

impl Clone for Descriptor {
    ghost is_clone = { λ descriptor copy. copy ≡ descriptor };

    fn clone(&self) -> Result<Descriptor, AllocError> {
        Ok(Descriptor {
            id: self.id.clone()?,
            core: self.core,
            size: self.size,
            tombstone: self.tombstone,
        })
    }
}

impl Descriptor {
    /// The descriptor of a segment whose chunk has that many core partitions; `size` is what its
    /// producer states.
    ///
    /// # Errors
    ///
    /// None where there are more than 32,768 core partitions.
    pub fn new(id: SegmentId, core: u16, size: u64) -> Option<Descriptor>
        ensures value { SomeIff result (core ≤ max_core) (record { id = id; core = core; size = size; tombstone = false }) }
        ensures valid { IfSome result IsDescribed }
    {
        // For the proof: reading it exposes the invariant of its type.
        let _ = id.partition();
        if core <= MAX_CORE {
            Some(Descriptor {
                id,
                core,
                size,
                tombstone: false,
            })
        } else {
            None
        }
    }

    /// The tombstone of a chunk.
    ///
    /// # Errors
    ///
    /// None where the partition is not 0.
    pub fn tombstone(id: SegmentId) -> Option<Descriptor>
        ensures value { SomeIff result (id.partition ≡ 0) (record { id = id; core = 1; size = 0; tombstone = true }) }
        ensures valid { IfSome result IsDescribed }
    {
        if id.partition() == 0 {
            Some(Descriptor {
                id,
                core: 1,
                size: 0,
                tombstone: true,
            })
        } else {
            None
        }
    }

    /// The identifier of the segment.
    pub fn id(&self) -> &SegmentId
        ensures value { result.now ≡ self.now.id }
        ensures valid { IsDescribed self.now }
    {
        &self.id
    }

    /// The number of core partitions that it names for its chunk.
    pub fn core(&self) -> u16
        ensures value { result ≡ self.now.core }
        ensures valid { IsDescribed self.now }
    {
        self.core
    }

    /// The size that the producer of the segment states, which is only carried.
    pub fn size(&self) -> u64
        ensures value { result ≡ self.now.size }
        ensures valid { IsDescribed self.now }
    {
        self.size
    }

    /// Whether it is a tombstone: without a file and without rows.
    pub fn is_tombstone(&self) -> bool
        ensures value { result ≡ self.now.tombstone }
        ensures valid { IsDescribed self.now }
    {
        self.tombstone
    }
}

impl PartialEq for Descriptor {
    ghost eq = { same_described };

    ghost laws = { orders.same_described-per };

    #[tactic(auto, using(crate::proofs::DescribedLemmas::equality_facts))]
    fn eq(&self, other: &Descriptor) -> bool
        ensures value { result ≡ same_described self.now other.now }
        ensures same { IsTrue result ↔ (self.now ≡ other.now) }
    {
        self.id == other.id
            && self.core == other.core
            && self.size == other.size
            && self.tombstone == other.tombstone
    }
}

impl Eq for Descriptor {
    ghost laws = { orders.same_described-equiv };
}

impl PartialOrd for Descriptor {
    ghost partial_cmp = { λ a b. Some (described_cmp a b) };

    ghost laws = { orders.described_cmp-po };

    fn partial_cmp(&self, other: &Descriptor) -> Option<Ordering> {
        Some(self.cmp(other))
    }
}

impl Ord for Descriptor {
    ghost cmp = { described_cmp };

    ghost total = { orders.described_cmp-total };

    ghost matches_partial_cmp = { λ a b. refl };

    ghost matches_eq = { orders.described_cmp-ties };

    fn cmp(&self, other: &Descriptor) -> Ordering {
        let id = self.id.cmp(&other.id);
        let core = self.core.cmp(&other.core);
        let size = self.size.cmp(&other.size);
        id.then(core)
            .then(size)
            .then(self.tombstone.cmp(&other.tombstone))
    }
}
