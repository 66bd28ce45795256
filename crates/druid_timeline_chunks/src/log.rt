//! What edits found, so that it can be put back.
ghost use Rattle.std.specs.Prelude.{◌≡◌, ◌+◌, ◌≤◌, List, [], IfOk, OnOk, length, vec_capacity};
ghost use Rattle.druid_segment_id.specs.Group.{Group, group_of};
ghost use Rattle.druid_timeline_chunks.specs.Chunks.{AreChunks, Chunk as Held, members_at};
ghost use Rattle.druid_timeline_chunks.specs.Edits.{AreSaved, HasRoom, HasSaved, IsSaved, chunks_before, members_in};

use crate::undo::put_all_back;
use crate::{Chunk, Chunks};
use druid_segment_id::{GroupKey, SegmentId};
use std::alloc::{AllocError, Global};
use std::collections::HashSet;
use std::marker::Model;

// The chunk of each group that edits have touched, as the first of them found it, and room for all chunks that putting
// them back can make. The room is an empty vector of its own, since no contract tells what `Chunks` has spare.
#[derive(Debug, Drop)]
pub(crate) struct UndoLog {
    saved: Vec<(GroupKey, Option<Chunk>)>,
    touched: HashSet<GroupKey>,
    room: Vec<Chunk>,
}

impl Model for UndoLog {
    ghost use Rattle.std.specs.Prelude.{◌≡◌, [], vec_capacity};
    ghost use Rattle.druid_timeline_chunks.specs.Edits.{AreSaved, Logged};

    ghost Value = { Logged };

    ghost view = { λ a. record { saved = a.saved.items; room = vec_capacity a.room } };

    ghost invariant = { λ a. AreSaved a.saved.items a.touched.keys × (a.room.items ≡ []) };
}

// The chunk of a group as it is.
fn chunk_at(chunks: &Chunks, key: &GroupKey) -> Result<Option<Chunk>, AllocError>
    ensures saved { IfOk result (λ old. IsSaved (key.now, old)) }
    ensures members { IfOk result (λ old. members_at chunks.now key.now ≡ members_in old) }
{
    match chunks.find(key) {
        Some(chunk) => Ok(Some(chunk.clone()?)),
        None => Ok(None),
    }
}

// Adds what a group had.
fn add_saved(
    saved: &mut Vec<(GroupKey, Option<Chunk>)>,
    touched: &mut HashSet<GroupKey>,
    key: GroupKey,
    old: Option<Chunk>,
) -> Result<(), AllocError>
    requires log { AreSaved saved.old.items touched.old.keys }
    requires old { IsSaved (key, old) }
    ensures log { AreSaved saved.new.items touched.new.keys }
    ensures has { OnOk result (HasSaved saved.new.items key) }
    ensures len { length saved.new.items ≤ length saved.old.items + 1 }
    ensures before { (now : List Held) → members_at now key ≡ members_in old → (g : Group)
        → members_at (chunks_before saved.new.items now) g ≡ members_at (chunks_before saved.old.items now) g }
{
    let copy = key.clone()?;
    saved.push((key, old))?;
    touched.insert(copy)?;
    Ok(())
}

// Makes room for the chunks, for those that were saved, and for two more.
fn make_room(
    room: &mut Vec<Chunk>,
    chunks: &[Chunk],
    saved: &[(GroupKey, Option<Chunk>)],
) -> Result<(), AllocError>
    requires { room.old.items ≡ [] }
    ensures empty { room.new.items ≡ [] }
    ensures more { vec_capacity room.old ≤ vec_capacity room.new }
    ensures room { OnOk result (length chunks.now + length saved.now + 2 ≤ vec_capacity room.new) }
{
    room.reserve(chunks.len() + saved.len() + 2)
}

impl UndoLog {
    // Nothing is saved.
    pub(crate) fn new(alloc: Global) -> UndoLog
        ensures { result.saved ≡ [] }
    {
        UndoLog {
            saved: Vec::new(alloc),
            touched: HashSet::new(alloc),
            room: Vec::new(alloc),
        }
    }

    // Saves the chunk of a segment's group, unless it is saved, and makes room for one chunk more than there are.
    pub(crate) fn save(&mut self, chunks: &Chunks, id: &SegmentId) -> Result<(), AllocError>
        requires room { HasRoom chunks.now self.old }
        ensures room { HasRoom chunks.now self.new }
        ensures more { OnOk result (length chunks.now + 1 + length self.new.saved ≤ self.new.room) }
        ensures has { OnOk result (HasSaved self.new.saved (group_of id.now)) }
        ensures before { (g : Group) → members_at (chunks_before self.new.saved chunks.now) g
            ≡ members_at (chunks_before self.old.saved chunks.now) g }
        ensures chunks { AreChunks chunks.now }
    {
        make_room(&mut self.room, chunks.as_slice(), &self.saved)?;
        let key = id.group()?;
        if self.touched.contains(&key) {
            return Ok(());
        }
        let old = chunk_at(chunks, &key)?;
        add_saved(&mut self.saved, &mut self.touched, key, old)
    }

    // The chunks with those that were saved put back. It does not allocate.
    pub(crate) fn put_back(self, chunks: Chunks) -> Chunks
        requires { HasRoom chunks self }
        ensures { (g : Group) → members_at result g ≡ members_at (chunks_before self.saved chunks) g }
    {
        if self.saved.is_empty() {
            return chunks;
        }
        let mut saved = self.saved;
        let alloc = chunks.alloc();
        let mut items = chunks.move_into(self.room);
        put_all_back(&mut items, &mut saved);
        Chunks::of_ordered(alloc, items)
    }
}
