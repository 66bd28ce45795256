//! Replies that tell a set of segments: whole, or a page of it.
ghost use Rattle.std.specs.Prelude.{◌≡◌, ◌≤◌, ◌<◌, length, IfOk};
ghost use Rattle.druid_segment_descriptor.specs.Reply.{max_page};
ghost use Rattle.druid_segment_descriptor.specs.Replay.{IsSegmentSet};
ghost use Rattle.druid_segment_descriptor.specs.declared.reply.Body.TheVariants.{Snapshot, Page};
ghost use Rattle.druid_sync_pages.specs.Pages.{page_at, pages_in};

use druid_segment_descriptor::{Descriptor, Mark, Reply, ReplyFault};
use druid_sync_pages::{page_of, pages_of};
use std::alloc::{AllocError, Global};

// The snapshot of a set.
pub(crate) fn snapshot_of(at: Mark, set: Vec<Descriptor>) -> Reply
    requires incarnation { 1 ≤ at.incarnation }
    requires set { IsSegmentSet set.items }
    ensures { result ≡ Snapshot at set.items }
{
    match Reply::snapshot(at, set) {
        Ok(reply) => reply,
        Err(ReplyFault::TooMany) => unreachable!(),
        Err(ReplyFault::LengthOfDelta) => unreachable!(),
        Err(ReplyFault::DoubledSegment) => unreachable!(),
        Err(ReplyFault::BadPage) => unreachable!(),
        Err(ReplyFault::Memory) => unreachable!(),
    }
}

// A page of a set that is too large for one message.
pub(crate) fn page_of_set(
    alloc: Global,
    at: Mark,
    set: &[Descriptor],
    page: u16,
) -> Result<Reply, AllocError>
    requires incarnation { 1 ≤ at.incarnation }
    requires set { IsSegmentSet set.now }
    requires many { max_page < length set.now }
    requires there { page < pages_in (length set.now) }
    ensures { IfOk result (λ reply. reply ≡ Page at page (pages_in (length set.now)) (page_at set.now page)) }
{
    let segments = page_of(alloc, set, page)?;
    match Reply::page(at, page, pages_of(set.len()) as u16, segments) {
        Ok(reply) => Ok(reply),
        Err(ReplyFault::TooMany) => unreachable!(),
        Err(ReplyFault::LengthOfDelta) => unreachable!(),
        Err(ReplyFault::DoubledSegment) => unreachable!(),
        Err(ReplyFault::BadPage) => unreachable!(),
        Err(ReplyFault::Memory) => unreachable!(),
    }
}
