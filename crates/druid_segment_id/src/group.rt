//! Groups of segments, and the order of their ranks, by which alone versions are compared.
ghost use Rattle.std.specs.Prelude.{◌≡◌, ◌+◌, ◌++◌, ◌↔◌, ◌==◌, ◌&&◌, IsTrue, bytes_eq};
ghost use Rattle.std.proofs.Common.{rules};
ghost use Rattle.std.specs.Hash as fed;
ghost use Rattle.std.specs.Cmp.Rules.{comparing, hashing};
ghost use Rattle.druid_time.specs.Instant.{unix_ms};
ghost use Rattle.druid_segment_id.specs.Names.{IsVersion};
ghost use Rattle.druid_segment_id.specs.Group.{IsGroup, same_group, Outranks};

use crate::{Meter, Version};
use druid_time::Interval;
use std::alloc::AllocError;
use std::cmp::Ordering;
use std::hash::{Hash, Hasher};
use std::marker::Model;

/// Names the group of the segments that share an interval and a version, within its data source.
///
/// A contract sees the interval and the version. Groups have no order but that of their ranks.
#[derive(Debug, Drop)]
pub struct GroupKey {
    interval: Interval,
    version: Version,
}

impl Model for GroupKey {
    ghost use Rattle.druid_segment_id.specs.Group.{Group, IsGroup};

    ghost Value = { Group };

    ghost view = { λ a. record { interval = a.interval; version = a.version } };

    ghost invariant = { λ a. IsGroup (record { interval = a.interval; version = a.version }) };
}

impl GroupKey {
    /// The group of that interval and that version.
    pub fn new(interval: Interval, version: Version) -> GroupKey
        ensures value { result ≡ record { interval = interval; version = version } }
        ensures valid { IsGroup result }
    {
        let _start = interval.start();
        let _text = version.as_str();
        GroupKey { interval, version }
    }

    /// The interval of its segments.
    pub fn interval(&self) -> Interval
        ensures value { result ≡ self.now.interval }
        ensures valid { IsGroup self.now }
    {
        self.interval
    }

    /// The version of its segments.
    pub fn version(&self) -> &Version
        ensures value { result.now ≡ self.now.version }
        ensures valid { IsGroup self.now }
    {
        &self.version
    }

    /// Its rank among the groups that overlap it.
    pub fn rank(&self) -> Rank<'_>
        ensures value { result ≡ self.now }
        ensures valid { IsGroup self.now }
    {
        let _version = &self.version;
        Rank { group: self }
    }
}

impl Clone for GroupKey {
    ghost is_clone = { λ group copy. copy ≡ group };

    fn clone(&self) -> Result<GroupKey, AllocError> {
        Ok(GroupKey {
            interval: self.interval,
            version: self.version.clone()?,
        })
    }
}

impl PartialEq for GroupKey {
    ghost eq = { same_group };

    ghost laws = { Prim.search (comparing, rules) };

    fn eq(&self, other: &GroupKey) -> bool
        ensures value { result ≡ same_group self.now other.now }
        ensures same { IsTrue result ↔ (self.now ≡ other.now) }
    {
        self.interval == other.interval && self.version == other.version
    }
}

impl Eq for GroupKey {
    ghost laws = { Prim.search (comparing, rules) };
}

impl Hash for GroupKey {
    ghost hash_input = { λ g. fed.i64 (unix_ms g.interval.start)
        ++ fed.i64 (unix_ms g.interval.end)
        ++ fed.str g.version };

    ghost respects_eq = { Prim.search (hashing, rules) };

    fn hash<H: Hasher>(&self, state: &mut H) {
        self.interval.start().ms().hash(state);
        self.interval.end().ms().hash(state);
        self.version.hash(state);
    }
}

/// The rank of a group: of two complete groups that overlap, the one of the higher rank is seen.
///
/// A contract sees the group.
#[derive(Debug, Drop)]
pub struct Rank<'a> {
    group: &'a GroupKey,
}

impl<'a> Model for Rank<'a> {
    ghost use Rattle.druid_segment_id.specs.Group.{Group};

    ghost Value = { Group };

    ghost view = { λ a. a.group.now };
}

impl Rank<'_> {
    /// Whether this rank is the higher one: of the higher version by bytes, then of the later start, then of the
    /// later end. It counts one on the meter.
    pub fn beats(&self, other: &Rank, meter: &mut Meter) -> bool
        ensures answer { IsTrue result ↔ Outranks self.now other.now }
        ensures counted { meter.new ≡ meter.old + 1 }
    {
        *meter = meter.one_more();
        let (mine, theirs) = (self.group, other.group);
        let version = mine.version.as_str().cmp(theirs.version.as_str());
        let start = mine.interval.start().cmp(&theirs.interval.start());
        let end = mine.interval.end().cmp(&theirs.interval.end());
        version.then(start.then(end)) == Ordering::Greater
    }
}
