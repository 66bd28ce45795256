//! Facts that hold of all segments.
ghost use Rattle.std.specs.Prelude.{◌≡◌, ◌≢◌, ◌<◌, ◌≤◌, ℕ, List, ◌++◌, length, take, Ok, Err};
ghost use Rattle.druid_segment_rows.specs.Segment.{Segment, IsSegment, text_length, max_text};
ghost use Rattle.druid_segment_file.specs.ByteParts.{spelling, Fits};
ghost use Rattle.druid_segment_file.specs.ColumnBytes.{IsColumnSpelling};
ghost use Rattle.druid_segment_file.specs.Reader.{segment_at};
ghost use Rattle.druid_segment_file.specs.declared.fault.FileFault.{FileFault};
ghost use Rattle.druid_segment_file.specs.declared.fault.FileFault.TheVariants.{Cut, Trailing};

/// The length of a segment's spelling in rows is the one that its limit is about.
pub fn lengths_agree()
    ensures { (s : Segment) → length (spelling s) ≡ text_length s }
{}

/// A segment has one spelling by columns, where it has one in rows.
pub fn one_column_spelling()
    ensures { (s : Segment) (bytes others : List ℕ) → IsColumnSpelling bytes s → IsColumnSpelling others s → bytes ≡ others }
{}

/// What is spelled so is read, in either layout, and so no two segments share a spelling. A spelling by columns may be
/// longer than a file may be.
pub fn spellings_are_read_back()
    ensures rows { (s : Segment) → IsSegment s → Fits s → segment_at (spelling s) ≡ Ok s }
    ensures columns { (s : Segment) (bytes : List ℕ) → IsSegment s → Fits s → IsColumnSpelling bytes s → length bytes ≤ max_text → segment_at bytes ≡ Ok s }
{}

/// A file that ends before its segment does is a cut file, wherever it ends.
pub fn cut_files_are_cut()
    ensures rows { (s : Segment) (k : ℕ) → IsSegment s → Fits s → k < length (spelling s) → segment_at (take k (spelling s)) ≡ Err Cut }
    ensures columns { (s : Segment) (bytes : List ℕ) (k : ℕ) → IsSegment s → Fits s → IsColumnSpelling bytes s → k < length bytes → k ≤ max_text → segment_at (take k bytes) ≡ Err Cut }
{}

/// A file that goes on after its segment has trailing bytes, whatever they are and however many.
pub fn longer_files_have_trailing_bytes()
    ensures rows { (s : Segment) (more : List ℕ) → IsSegment s → Fits s → 0 < length more → segment_at (spelling s ++ more) ≡ Err Trailing }
    ensures columns { (s : Segment) (bytes more : List ℕ) → IsSegment s → Fits s → IsColumnSpelling bytes s → length bytes ≤ max_text → 0 < length more → segment_at (bytes ++ more) ≡ Err Trailing }
{}

/// A file that begins with a fault has that fault, whatever bytes follow within the limit: what is no magic, a part that
/// breaks a rule, a row outside the interval, a count or a length that passes its limit.
pub fn faults_stay()
    ensures { (front more : List ℕ) (fault : FileFault) → length (front ++ more) ≤ max_text → segment_at front ≡ Err fault → fault ≢ Cut → fault ≢ Trailing → segment_at (front ++ more) ≡ Err fault }
{}
