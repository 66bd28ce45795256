//! Replies of nodes, judged without memory where they are made.
ghost use Rattle.std.specs.Prelude.{◌≡◌, ◌≢◌, ◌↔◌, ◌<◌, ◌≤◌, ◌⊎◌, IfOk, IsErrOf, IsTrue, length};
ghost use Rattle.druid_segment_descriptor.specs.Reply.{max_segments, max_page, max_changes, HaveOwnIdentifiers, AreSorted, IsAsFar, IsFull, IsPageOf};

use crate::limits::{MAX_CHANGES, MAX_PAGE, MAX_PAGES, MAX_SEGMENTS};
use crate::{Cause, Change, Descriptor, Items, Mark};
use std::cmp::Ordering;
use std::marker::Model;
use thiserror::Error;

/// Why values make no reply.
#[derive(Clone, Copy, Debug, PartialEq, Eq, Drop, Error)]
pub enum ReplyFault {
    /// Y5: a snapshot of more than 200,000 segments, a page of more than 20,000, or a delta of more than 1,000 changes.
    #[error("Y5: too many segments or changes")]
    TooMany,
    /// Y3: the marks of a delta are of two incarnations, or are not as far apart as it has changes.
    #[error("Y3: a delta of another length")]
    LengthOfDelta,
    /// Y4: an identifier stands twice in a snapshot.
    #[error("Y4: a doubled segment")]
    DoubledSegment,
    /// Y7: no page of 2 to 10, whose segments rise, and of which all but the last are full.
    #[error("Y7: a bad page")]
    BadPage,
    /// Y9: out of memory.
    #[error("Y9: out of memory")]
    Memory,
}

/// The descriptors of a snapshot.
pub type Descriptors = Items<Descriptor>;

/// The changes of a delta.
pub type Changes = Items<Change>;

/// What a reply says.
#[derive(Debug, Drop)]
pub enum Body {
    /// The changes of one incarnation of the node from one mark to another, in order.
    Delta {
        /// The mark before the first change.
        from: Mark,
        /// The mark after the last change.
        to: Mark,
        /// The changes.
        changes: Changes,
    },
    /// All that the node serves at a mark, by identifier.
    Snapshot {
        /// The mark.
        at: Mark,
        /// The segments.
        segments: Descriptors,
    },
    /// A page of all that the node served at a mark.
    Page {
        /// The mark.
        at: Mark,
        /// The page, counted from 0.
        page: u16,
        /// How many pages there are.
        of: u16,
        /// The segments of the page, by identifier.
        segments: Descriptors,
    },
    /// The changes asked for are not to be had: the broker has to ask for all that the node serves.
    Reset {
        /// Why.
        cause: Cause,
        /// The mark of the node.
        at: Mark,
    },
}

/// What a node answers to a broker that follows it.
#[derive(Debug, Drop)]
pub struct Reply {
    body: Body,
}

impl Model for Reply {
    ghost use Rattle.druid_segment_descriptor.specs.declared.reply.Body.{Body};
    ghost use Rattle.druid_segment_descriptor.specs.ReplyBody.{IsReply};

    ghost Value = { Body };

    ghost view = { λ a. a.body };

    ghost invariant = { λ a. IsReply a.body };
}

// Whether each comes before the next.
fn are_sorted(segments: &[Descriptor]) -> bool
    ensures { IsTrue result ↔ AreSorted segments.now }
{
    for i in 1..segments.len() {
        if segments[i - 1].id().cmp(segments[i].id()) != Ordering::Less {
            return false;
        }
    }
    true
}

// Whether the second mark is that many changes after the first, in its incarnation.
fn is_as_far(from: Mark, to: Mark, changes: u64) -> bool
    ensures { IsTrue result ↔ IsAsFar from to changes }
{
    from.incarnation() == to.incarnation() && from.count().checked_add(changes) == Some(to.count())
}

// Whether a page may have as many segments: all but the last are full.
fn is_full(page: u16, of: u16, count: usize) -> bool
    requires { page < of }
    ensures { IsTrue result ↔ IsFull page of count }
{
    count == MAX_PAGE || (1 <= count && page + 1 == of)
}

// Whether these are the segments of a page of so many.
fn is_page_of(page: u16, of: u16, segments: &[Descriptor]) -> bool
    requires { length segments.now ≤ max_page }
    ensures { IsTrue result ↔ IsPageOf page of segments.now }
{
    if of < 2 || MAX_PAGES < of || of <= page {
        return false;
    }
    is_full(page, of, segments.len()) && are_sorted(segments)
}

impl Reply {
    ghost use Rattle.druid_segment_descriptor.specs.ReplyBody.{IsReply, IsSnapshotOf};
    ghost use Rattle.druid_segment_descriptor.specs.declared.reply.Body.TheVariants.{Delta, Page, Reset};

    /// The changes of one incarnation of a node between two marks, in order. Does not allocate.
    ///
    /// # Errors
    ///
    /// Y5; then Y3.
    pub fn delta(from: Mark, to: Mark, changes: Vec<Change>) -> Result<Reply, ReplyFault>
        requires from { 1 ≤ from.incarnation }
        requires to { 1 ≤ to.incarnation }
        ensures ok { IfOk result (λ reply. reply ≡ Delta from to changes.items) }
        ensures too_many { IsErrOf result ReplyFault.TooMany ↔ (max_changes < length changes.items) }
        ensures length { IsErrOf result ReplyFault.LengthOfDelta
            ↔ ((length changes.items ≤ max_changes) × (IsAsFar from to (length changes.items) → ⊥)) }
        ensures doubled { result ≢ Err ReplyFault.DoubledSegment }
        ensures page { result ≢ Err ReplyFault.BadPage }
        ensures memory { result ≢ Err ReplyFault.Memory }
    {
        if changes.len() > MAX_CHANGES {
            return Err(ReplyFault::TooMany);
        }
        if !is_as_far(from, to, changes.len() as u64) {
            return Err(ReplyFault::LengthOfDelta);
        }
        let changes = Items::new(changes);
        Ok(Reply {
            body: Body::Delta { from, to, changes },
        })
    }

    /// That a node has not the changes that it was asked for, and its mark. Does not allocate.
    pub fn reset(cause: Cause, at: Mark) -> Reply
        requires { 1 ≤ at.incarnation }
        ensures { result ≡ Reset cause at }
    {
        Reply {
            body: Body::Reset { cause, at },
        }
    }

    /// All that a node serves at a mark; the segments may stand in any order, and the reply has
    /// them by identifier. Does not allocate.
    ///
    /// # Errors
    ///
    /// Y5; then Y4.
    pub fn snapshot(at: Mark, mut segments: Vec<Descriptor>) -> Result<Reply, ReplyFault>
        requires { 1 ≤ at.incarnation }
        ensures ok { IfOk result (IsSnapshotOf at segments.items) }
        ensures too_many { IsErrOf result ReplyFault.TooMany ↔ (max_segments < length segments.items) }
        ensures doubled { IsErrOf result ReplyFault.DoubledSegment
            ↔ ((length segments.items ≤ max_segments) × (HaveOwnIdentifiers segments.items → ⊥)) }
        ensures length { result ≢ Err ReplyFault.LengthOfDelta }
        ensures page { result ≢ Err ReplyFault.BadPage }
        ensures memory { result ≢ Err ReplyFault.Memory }
    {
        if segments.len() > MAX_SEGMENTS {
            return Err(ReplyFault::TooMany);
        }
        segments.sort_unstable();
        if !are_sorted(&segments) {
            return Err(ReplyFault::DoubledSegment);
        }
        let segments = Items::new(segments);
        Ok(Reply {
            body: Body::Snapshot { at, segments },
        })
    }

    /// A page of all that a node served at a mark. Does not allocate.
    ///
    /// # Errors
    ///
    /// Y5; then Y7 unless there are 2 to 10 pages, it is one of them, its segments rise, and it is
    /// full or the last, which has one at least.
    pub fn page(
        at: Mark,
        page: u16,
        of: u16,
        segments: Vec<Descriptor>,
    ) -> Result<Reply, ReplyFault>
        requires { 1 ≤ at.incarnation }
        ensures ok { IfOk result (λ reply. reply ≡ Page at page of segments.items) }
        ensures too_many { IsErrOf result ReplyFault.TooMany ↔ (max_page < length segments.items) }
        ensures bad { IsErrOf result ReplyFault.BadPage
            ↔ ((length segments.items ≤ max_page) × (IsPageOf page of segments.items → ⊥)) }
        ensures length { result ≢ Err ReplyFault.LengthOfDelta }
        ensures doubled { result ≢ Err ReplyFault.DoubledSegment }
        ensures memory { result ≢ Err ReplyFault.Memory }
    {
        if segments.len() > MAX_PAGE {
            return Err(ReplyFault::TooMany);
        }
        if !is_page_of(page, of, &segments) {
            return Err(ReplyFault::BadPage);
        }
        let segments = Items::new(segments);
        Ok(Reply {
            body: Body::Page {
                at,
                page,
                of,
                segments,
            },
        })
    }

    /// What it says.
    pub fn body(&self) -> &Body
        ensures value { result.now ≡ self.now }
        ensures valid { IsReply self.now }
    {
        &self.body
    }
}
