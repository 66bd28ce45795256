//! Segment slices.
ghost use Rattle.std.specs.Prelude.{◌≡◌, Some, refl};
ghost use Rattle.druid_query.specs.AskedOrder.{same_asked, same_asked-per, same_asked-equiv};
ghost use Rattle.druid_query.specs.PieceOrder as order;
ghost use Rattle.druid_query.specs.PieceOrder.{piece_cmp};

use druid_segment_id::SegmentId;
use druid_time::Interval;
use std::alloc::AllocError;
use std::cmp::Ordering;
use std::marker::Model;

/// A segment, and an interval of it that is asked for. Slices are in the order of their segments, and then of their own
/// starts and ends.
///
/// A contract sees the pair.
#[derive(Debug, Drop)]
pub struct SegmentSlice {
    id: SegmentId,
    interval: Interval,
}

impl Model for SegmentSlice {
    ghost use Rattle.druid_query.specs.Asked.{Asked};

    ghost Value = { Asked };

    ghost view = { λ a. (a.id, a.interval) };
}

impl SegmentSlice {
    /// The slice of that segment. Whether the interval lies inside it is not judged.
    pub fn new(id: SegmentId, interval: Interval) -> SegmentSlice
        ensures { result ≡ (id, interval) }
    {
        SegmentSlice { id, interval }
    }

    /// The segment.
    pub fn id(&self) -> &SegmentId
        ensures { result.now ≡ self.now.0 }
    {
        &self.id
    }

    /// The interval that is asked for.
    pub fn interval(&self) -> Interval
        ensures { result ≡ self.now.1 }
    {
        self.interval
    }
}

impl Clone for SegmentSlice {
    ghost is_clone = { λ slice copy. copy ≡ slice };

    fn clone(&self) -> Result<SegmentSlice, AllocError> {
        Ok(SegmentSlice {
            id: self.id.clone()?,
            interval: self.interval,
        })
    }
}

impl PartialEq for SegmentSlice {
    ghost eq = { same_asked };

    ghost laws = { same_asked-per };

    fn eq(&self, other: &SegmentSlice) -> bool
        ensures { result ≡ same_asked self.now other.now }
    {
        self.id == other.id
            && self.interval.start() == other.interval.start()
            && self.interval.end() == other.interval.end()
    }
}

impl Eq for SegmentSlice {
    ghost laws = { same_asked-equiv };
}

impl PartialOrd for SegmentSlice {
    ghost partial_cmp = { λ a b. Some (piece_cmp a b) };

    ghost laws = { order.piece_cmp-po };

    fn partial_cmp(&self, other: &SegmentSlice) -> Option<Ordering> {
        Some(self.cmp(other))
    }
}

impl Ord for SegmentSlice {
    ghost cmp = { piece_cmp };

    ghost total = { order.piece_cmp-total };

    ghost matches_partial_cmp = { λ a b. refl };

    ghost matches_eq = { order.piece_cmp-ties };

    fn cmp(&self, other: &SegmentSlice) -> Ordering {
        self.id
            .cmp(&other.id)
            .then(self.interval.start().cmp(&other.interval.start()))
            .then(self.interval.end().cmp(&other.interval.end()))
    }
}
