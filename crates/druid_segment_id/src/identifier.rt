//! Segment identifiers, as their four parts.
ghost use Rattle.std.specs.Prelude.{◌≡◌, ◌↔◌, ◌++◌, IsTrue, IfOk};
ghost use Rattle.std.proofs.Common.{rules};
ghost use Rattle.std.specs.Hash as fed;
ghost use Rattle.std.specs.Cmp.Rules.{hashing};
ghost use Rattle.druid_time.specs.Instant.{unix_ms};
ghost use Rattle.druid_segment_id.specs.Identifier.{IsIdentifier, same_identifier};
ghost use Rattle.druid_segment_id.specs.IdentifierLaws.{same_identifier-equiv, same_identifier-per};
ghost use Rattle.druid_segment_id.specs.Group.{group_of};

use crate::{GroupKey, Name, Version};
use druid_time::Interval;
use std::alloc::AllocError;
use std::hash::{Hash, Hasher};
use std::marker::Model;

/// Identifies a segment by its data source, its interval, its version and the number of its partition.
/// Identifiers are in the order of the bytes of their texts.
///
/// A contract sees the four parts.
#[derive(Debug, Drop)]
pub struct SegmentId {
    pub(crate) source: Name,
    pub(crate) interval: Interval,
    pub(crate) version: Version,
    pub(crate) partition: u16,
}

impl Model for SegmentId {
    ghost use Rattle.druid_segment_id.specs.Identifier.{Identifier, IsIdentifier};

    ghost Value = { Identifier };

    ghost view = { λ a. record { source = a.source; interval = a.interval; version = a.version; partition = a.partition } };

    ghost invariant = { λ a. IsIdentifier (record { source = a.source; interval = a.interval; version = a.version; partition = a.partition }) };
}

impl SegmentId {
    /// The identifier of those parts. The partition is a number from 0 to 65,535.
    pub fn new(source: Name, interval: Interval, version: Version, partition: u16) -> SegmentId
        ensures value { result
            ≡ record { source = source; interval = interval; version = version; partition = partition } }
        ensures valid { IsIdentifier result }
    {
        // For the proof: reading it exposes the invariant of its type.
        let _source = source.as_str();
        let _start = interval.start();
        let _version = version.as_str();
        SegmentId {
            source,
            interval,
            version,
            partition,
        }
    }

    /// The name of the data source.
    pub fn source(&self) -> &Name
        ensures value { result.now ≡ self.now.source }
        ensures valid { IsIdentifier self.now }
    {
        &self.source
    }

    /// The interval of the segment.
    pub fn interval(&self) -> Interval
        ensures value { result ≡ self.now.interval }
        ensures valid { IsIdentifier self.now }
    {
        self.interval
    }

    /// The version of the segment.
    pub fn version(&self) -> &Version
        ensures value { result.now ≡ self.now.version }
        ensures valid { IsIdentifier self.now }
    {
        &self.version
    }

    /// The number of the partition within its group.
    pub fn partition(&self) -> u16
        ensures value { result ≡ self.now.partition }
        ensures valid { IsIdentifier self.now }
    {
        self.partition
    }

    /// Its group, within the data source.
    ///
    /// # Errors
    ///
    /// Out of memory.
    pub fn group(&self) -> Result<GroupKey, AllocError>
        ensures { IfOk result (λ group. group ≡ group_of self.now) }
    {
        Ok(GroupKey::new(self.interval, self.version.clone()?))
    }
}

impl Clone for SegmentId {
    ghost is_clone = { λ id copy. copy ≡ id };

    fn clone(&self) -> Result<SegmentId, AllocError> {
        Ok(SegmentId {
            source: self.source.clone()?,
            interval: self.interval,
            version: self.version.clone()?,
            partition: self.partition,
        })
    }
}

impl PartialEq for SegmentId {
    ghost eq = { same_identifier };

    ghost laws = { same_identifier-per };

    #[tactic(auto, using(crate::proofs::EqualLemmas::equality_facts))]
    fn eq(&self, other: &SegmentId) -> bool
        ensures value { result ≡ same_identifier self.now other.now }
        ensures same { IsTrue result ↔ (self.now ≡ other.now) }
    {
        self.partition == other.partition
            && self.interval == other.interval
            && self.version == other.version
            && self.source == other.source
    }
}

impl Eq for SegmentId {
    ghost laws = { same_identifier-equiv };
}

impl Hash for SegmentId {
    ghost hash_input = { λ id. fed.str id.source
        ++ fed.i64 (unix_ms id.interval.start)
        ++ fed.i64 (unix_ms id.interval.end)
        ++ fed.str id.version
        ++ fed.u16 id.partition };

    ghost respects_eq = { Prim.search (hashing, rules) };

    fn hash<H: Hasher>(&self, state: &mut H) {
        self.source.hash(state);
        self.interval.start().ms().hash(state);
        self.interval.end().ms().hash(state);
        self.version.hash(state);
        self.partition.hash(state);
    }
}
