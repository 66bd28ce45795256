//! What a node's answers are good for.
ghost use Rattle.std.specs.Prelude.{List};
ghost use Rattle.druid_segment_rows.specs.Segment.{Segment};
ghost use Rattle.druid_query.specs.Query.{Query};
ghost use Rattle.druid_query.specs.Asked.{Asked, StandApart};
ghost use Rattle.druid_partial.specs.Groups.{Group, IsResult};
ghost use Rattle.druid_partial.specs.Partials.{kinds_of};
ghost use Rattle.druid_segment_descriptor.specs.Replay.{IsSegmentSet};
ghost use Rattle.druid_node.specs.State.{descriptors_of};
ghost use Rattle.druid_partial_scan.specs.Once.{counted_groups, counted_once};

/// Where no two pieces of one segment overlap, what a node answers is the result over the rows of the segments that it holds
/// and that lie in some piece, each row once, however the pieces cut the segments.
pub fn rows_are_counted_once()
    ensures { (query : Query) (held : List Segment) (asked : List Asked) (groups : List Group) → IsSegmentSet (descriptors_of held) → StandApart asked
        → IsResult (kinds_of query) (counted_groups query held asked) groups
        → IsResult (kinds_of query) (counted_once query asked held) groups }
{}
