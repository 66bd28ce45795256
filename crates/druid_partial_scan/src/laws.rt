//! Facts that hold of the results over rows of segments.
ghost use Rattle.std.specs.Prelude.{List};
ghost use Rattle.druid_segment_rows.specs.Segment.{Segment};
ghost use Rattle.druid_query.specs.Query.{Query};
ghost use Rattle.druid_query.specs.Asked.{Asked, StandApart};
ghost use Rattle.druid_partial.specs.Groups.{Group, IsResult};
ghost use Rattle.druid_partial.specs.Partials.{kinds_of};
ghost use Rattle.druid_partial_scan.specs.Once.{HaveOwnSegments, counted_groups, counted_once};

/// Where no two pieces of one segment overlap, the result over what all pieces tell is that over the rows of these segments that
/// lie in some piece, each row once, however the pieces cut the segments.
pub fn rows_are_counted_once()
    ensures { (query : Query) (segments : List Segment) (asked : List Asked) (groups : List Group) → HaveOwnSegments segments → StandApart asked
        → IsResult (kinds_of query) (counted_groups query segments asked) groups
        → IsResult (kinds_of query) (counted_once query asked segments) groups }
{}
