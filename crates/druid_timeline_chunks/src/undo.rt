//! Putting saved chunks back within the room that there is.
ghost use Rattle.std.specs.Prelude.{◌≡◌, ◌+◌, ◌<◌, ◌≤◌, [], ◌∷◌, All, length, vec_len, vec_capacity};
ghost use Rattle.druid_segment_id.specs.Group.{Group};
ghost use Rattle.druid_timeline_members.specs.Members.{HasMember};
ghost use Rattle.druid_timeline_chunks.specs.Chunks.{members_at};
ghost use Rattle.druid_timeline_chunks.specs.Edits.{IsSaved, chunk_before, chunks_before};
ghost use Rattle.druid_timeline_chunks.specs.Places.{AreInOrder};

use crate::Chunk;
use crate::order::seek;
use druid_segment_id::GroupKey;

// Puts a chunk where the chunk of its group is, or where it would be.
fn put(items: &mut Vec<Chunk>, chunk: Chunk)
    requires ordered { AreInOrder items.old.items }
    requires inhabited { HasMember chunk.1 }
    requires room { vec_len items.old < vec_capacity items.old }
    ensures ordered { AreInOrder items.new.items }
    ensures put { (g : Group) → members_at items.new.items g ≡ members_at (chunk ∷ items.old.items) g }
    ensures len { vec_len items.new ≤ vec_len items.old + 1 }
    ensures capacity { vec_capacity items.new ≡ vec_capacity items.old }
{
    match seek(items, chunk.key().interval(), chunk.key().version()) {
        Ok(i) => items[i] = chunk,
        Err(i) => {
            let _ = items.insert(i, chunk);
        }
    }
}

// Takes the chunk of a group out, if there is one.
fn take_out(items: &mut Vec<Chunk>, key: &GroupKey)
    requires ordered { AreInOrder items.old.items }
    ensures ordered { AreInOrder items.new.items }
    ensures taken { (g : Group) → members_at items.new.items g ≡ members_at ((key.now, []) ∷ items.old.items) g }
    ensures len { vec_len items.new ≤ vec_len items.old }
    ensures capacity { vec_capacity items.new ≡ vec_capacity items.old }
{
    if let Ok(i) = seek(items, key.interval(), key.version()) {
        items.remove(i);
    }
}

// Puts a group's chunk back as it was.
fn put_back(items: &mut Vec<Chunk>, saved: (GroupKey, Option<Chunk>))
    requires ordered { AreInOrder items.old.items }
    requires saved { IsSaved saved }
    requires room { vec_len items.old < vec_capacity items.old }
    ensures ordered { AreInOrder items.new.items }
    ensures back { (g : Group) → members_at items.new.items g ≡ members_at (chunk_before saved ∷ items.old.items) g }
    ensures len { vec_len items.new ≤ vec_len items.old + 1 }
    ensures capacity { vec_capacity items.new ≡ vec_capacity items.old }
{
    let (key, chunk) = saved;
    match chunk {
        Some(chunk) => put(items, chunk),
        None => take_out(items, &key),
    }
}

// Puts all that was saved back, the latest first.
pub(crate) fn put_all_back(items: &mut Vec<Chunk>, saved: &mut Vec<(GroupKey, Option<Chunk>)>)
    requires ordered { AreInOrder items.old.items }
    requires saved { All IsSaved saved.old.items }
    requires room { vec_len items.old + vec_len saved.old ≤ vec_capacity items.old }
    ensures ordered { AreInOrder items.new.items }
    ensures back { (g : Group) → members_at items.new.items g
        ≡ members_at (chunks_before saved.old.items items.old.items) g }
{
    while let Some(entry) = saved.pop() {
        put_back(items, entry);
    }
}
