//! What runs show at an instant, and in the parts of a set.
ghost use Rattle.std.specs.Prelude.{◌≡◌, ◌<◌, ◌≤◌, ◌++◌, ℕ, All, length, map, take, drop, IfOk, OnOk, MatchOption, Contains};
ghost use Rattle.std.specs.List.{filter_map};
ghost use Rattle.druid_timeline_chunks.specs.Chunks.{AreChunks, members_at};
ghost use Rattle.druid_time.specs.Extent.{Extent};
ghost use Rattle.druid_segment_id.specs.Group.{Group};
ghost use Rattle.druid_timeline.specs.Pieces.{AreRuns, ArePartitions, Shows, cut, cut_piece, shown_at, shown_of};
ghost use Rattle.druid_timeline.specs.Known.{AreKnown};

use crate::{Partitions, Piece};
use druid_segment_id::GroupKey;
use druid_time::{Instant, Interval};
use druid_timeline_chunks::Chunks;
use std::alloc::{AllocError, Global};
use std::collections::HashMap;

// The first run that ends after the instant.
fn first_beyond(runs: &[(Interval, GroupKey)], instant: Instant) -> usize
    requires { AreRuns (map shown_at runs.now) }
    ensures bound { result ≤ length runs.now }
    ensures before { (run : Extent × Group) → Contains (take result runs.now) run → run.0.end ≤ instant }
    ensures rest { (run : Extent × Group) → Contains (drop result runs.now) run → instant < run.0.end }
{
    runs.partition_point(|run| run.0.end() <= instant)
}

// The chunk that the runs show at an instant. None where they show none.
pub(crate) fn chunk_at(runs: &[(Interval, GroupKey)], instant: Instant) -> Option<&GroupKey>
    requires { AreRuns (map shown_at runs.now) }
    ensures { MatchOption result ((g : Group) → Shows (map shown_at runs.now) instant g → ⊥)
        (λ key. Shows (map shown_at runs.now) instant key.now) }
{
    let place = first_beyond(runs, instant);
    if place < runs.len() {
        let run = &runs[place];
        if run.0.contains(instant) {
            return Some(&run.1);
        }
    }
    None
}

// The partitions of a chunk, rising. None where nothing is held of it.
fn partitions_of(alloc: Global, chunks: &Chunks, key: &GroupKey) -> Result<Partitions, AllocError>
    ensures { IfOk result (λ parts. ArePartitions (members_at chunks.now key.now) parts) }
{
    match chunks.find(key) {
        Some(chunk) => Partitions::new(alloc, chunk.members().partitions()?),
        None => Partitions::new(alloc, Vec::new(alloc)),
    }
}

// The same, taken once for all pieces of a chunk in one lookup.
fn shared_partitions(
    alloc: Global,
    chunks: &Chunks,
    known: &mut HashMap<GroupKey, Partitions>,
    key: &GroupKey,
) -> Result<Partitions, AllocError>
    requires { AreKnown chunks.now known.old }
    ensures known { OnOk result (AreKnown chunks.now known.new) }
    ensures parts { IfOk result (λ parts. ArePartitions (members_at chunks.now key.now) parts) }
{
    if let Some(parts) = known.get(key) {
        return parts.clone();
    }
    let parts = partitions_of(alloc, chunks, key)?;
    let copy = parts.clone()?;
    known.insert(key.clone()?, copy)?;
    Ok(parts)
}

// Adds the pieces of the runs that overlap a part, cut by it.
fn add_pieces(
    alloc: Global,
    pieces: &mut Vec<Piece>,
    known: &mut HashMap<GroupKey, Partitions>,
    chunks: &Chunks,
    runs: &[(Interval, GroupKey)],
    part: Interval,
) -> Result<(), AllocError>
    requires runs { AreRuns (map shown_at runs.now) }
    requires known { AreKnown chunks.now known.old }
    requires parts { All (λ piece. ArePartitions (members_at chunks.now piece.group) piece.parts) pieces.old.items }
    ensures known { OnOk result (AreKnown chunks.now known.new) }
    ensures parts { OnOk result
        (All (λ piece. ArePartitions (members_at chunks.now piece.group) piece.parts) pieces.new.items) }
    ensures shown { OnOk result (map shown_of pieces.new.items
        ≡ map shown_of pieces.old.items ++ filter_map (cut_piece part) (map shown_at runs.now)) }
{
    let mut place = first_beyond(runs, part.start());
    while place < runs.len() {
        let run = &runs[place];
        let Some(both) = part.clip(&run.0) else {
            return Ok(());
        };
        let parts = shared_partitions(alloc, chunks, known, &run.1)?;
        let key = run.1.clone()?;
        pieces.push(Piece::new(both, key, parts))?;
        place += 1;
    }
    Ok(())
}

// The pieces of the runs, cut by the parts of a set, each with the partitions of its chunk.
pub(crate) fn pieces_in(
    alloc: Global,
    chunks: &Chunks,
    runs: &[(Interval, GroupKey)],
    parts: &[Interval],
) -> Result<Vec<Piece>, AllocError>
    requires { AreRuns (map shown_at runs.now) }
    ensures shown { IfOk result (λ found. map shown_of found.items ≡ cut parts.now (map shown_at runs.now)) }
    ensures parts { IfOk result (λ found.
        All (λ piece. ArePartitions (members_at chunks.now piece.group) piece.parts) found.items) }
    ensures chunks { AreChunks chunks.now }
{
    // For the proof: it tells that each group stands once.
    let _ = chunks.as_slice();
    let mut pieces = Vec::new(alloc);
    let mut known = HashMap::new(alloc);
    for part in parts {
        add_pieces(alloc, &mut pieces, &mut known, chunks, runs, *part)?;
    }
    Ok(pieces)
}
