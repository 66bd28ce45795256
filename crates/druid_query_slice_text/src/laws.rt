//! Facts that hold of all pieces.
ghost use Rattle.std.specs.Prelude.{◌≡◌, ◌↔◌, List, Some, IsTrue};
ghost use Rattle.druid_time.specs.Extent.{IsExtent};
ghost use Rattle.druid_segment_id.specs.Identifier.{IsIdentifier};
ghost use Rattle.druid_query.specs.Asked.{Asked, LiesInside, lies_inside, StandApart, stand_apart, asked_data, asked_at};

/// The JSON of a piece is read back as that piece, where the source is known.
pub fn asked_are_read_back()
    ensures { (a : Asked) → IsIdentifier a.0 → IsExtent a.1 → asked_at a.0.source (asked_data a) ≡ Some a }
{}

/// What is asked for is judged by its instants: that a piece lies inside its segment, and that no two of one segment overlap.
pub fn pieces_are_judged()
    ensures inside { (a : Asked) → IsExtent a.1 → IsTrue (lies_inside a) ↔ LiesInside a }
    ensures apart { (all : List Asked) → IsTrue (stand_apart all) ↔ StandApart all }
{}
