//! What a node loaded out of a file.
ghost use Rattle.std.specs.Prelude.{◌≡◌};

use druid_segment_id::SegmentId;
use std::marker::Model;

/// What a node loaded out of a file: the identifier of its segment, by which that is dropped, how many rows the segment has, and how
/// many bytes the file.
#[derive(Debug, Drop)]
pub struct LoadedFile {
    id: SegmentId,
    rows: usize,
    bytes: usize,
}

impl Model for LoadedFile {
    ghost use Rattle.druid_node.specs.Files.{Loaded};

    ghost Value = { Loaded };

    ghost view = { λ a. record { id = a.id; rows = a.rows; bytes = a.bytes } };
}

impl LoadedFile {
    // One of these parts.
    pub(crate) fn new(id: SegmentId, rows: usize, bytes: usize) -> LoadedFile
        ensures { result ≡ record { id = id; rows = rows; bytes = bytes } }
    {
        LoadedFile { id, rows, bytes }
    }

    /// The identifier of its segment.
    pub fn id(&self) -> &SegmentId
        ensures { result.now ≡ self.now.id }
    {
        &self.id
    }

    /// How many rows the segment has.
    pub fn rows(&self) -> usize
        ensures { result ≡ self.now.rows }
    {
        self.rows
    }

    /// How many bytes the file has.
    pub fn bytes(&self) -> usize
        ensures { result ≡ self.now.bytes }
    {
        self.bytes
    }
}
