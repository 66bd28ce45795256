//! A snapshot put together of the replies that are its pages.
ghost use Rattle.std.specs.Prelude.{◌≡◌, ◌≤◌, None, IfOk, IfErr, OnErr};
ghost use Rattle.druid_segment_descriptor.specs.Reply.{IsPageOf};
ghost use Rattle.druid_segment_descriptor.specs.ReplyBody.{IsReply};
ghost use Rattle.druid_inventory.specs.Assembly.{Gives, IsPageReply, PageRefused, TakesReply, RefusesReply};

use crate::ApplyFault;
use crate::replies::snapshot_of;
use druid_segment_descriptor::{Body, Descriptor, Mark, Reply};
use druid_sync_pages::{Assembly as Pages, PageFault};
use std::alloc::{AllocError, Global};
use std::marker::Model;

/// The pages of a snapshot of a node that have come so far, in any order: of the latest mark that any page had.
#[derive(Debug, Drop)]
pub struct Assembly {
    pages: Pages,
}

impl Model for Assembly {
    ghost use Rattle.std.specs.Prelude.{Option};
    ghost use Rattle.druid_sync_pages.specs.Assembly.{Parts};

    ghost Value = { Option Parts };

    ghost view = { λ a. a.pages };
}

impl Clone for Assembly {
    ghost is_clone = { λ assembly copy. copy ≡ assembly };

    fn clone(&self) -> Result<Assembly, AllocError> {
        Ok(Assembly {
            pages: self.pages.clone()?,
        })
    }
}

impl Assembly {
    /// No page has come.
    pub fn new(alloc: Global) -> Assembly
        ensures { result ≡ None }
    {
        Assembly {
            pages: Pages::new(alloc),
        }
    }

    /// Takes a reply that is a page, whatever its place, and gives the snapshot at its mark once
    /// all pages have come: then it keeps none. A page of a later mark than those that have come
    /// begins anew, and one of an earlier mark is passed over, as is one that has come before.
    ///
    /// # Errors
    ///
    /// A7 where a page of their mark is one of another number of pages, has other segments than
    /// when it came before, or completes pages that do not rise from one to the next; A9 last.
    /// Leaves all as it was.
    pub fn take(&mut self, reply: &Reply) -> Result<Option<Reply>, ApplyFault>
        requires { IsPageReply reply.now }
        ensures ok { IfOk result (λ given. TakesReply self.old reply.now given self.new) }
        ensures err { IfErr result (RefusesReply self.old reply.now) }
        ensures unchanged { OnErr result (self.new ≡ self.old) }
    {
        self.take_body(reply.body())
    }

    // Takes what a reply that is a page says.
    fn take_body(&mut self, body: &Body) -> Result<Option<Reply>, ApplyFault>
        requires valid { IsReply body.now }
        requires page { IsPageReply body.now }
        ensures ok { IfOk result (λ given. TakesReply self.old body.now given self.new) }
        ensures err { IfErr result (RefusesReply self.old body.now) }
        ensures unchanged { OnErr result (self.new ≡ self.old) }
    {
        match body {
            Body::Page {
                at,
                page,
                of,
                segments,
            } => self.take_page(*at, *page, *of, segments.as_slice()),
            Body::Delta { .. } => unreachable!(),
            Body::Snapshot { .. } => unreachable!(),
            Body::Reset { .. } => unreachable!(),
        }
    }

    // Takes a page.
    fn take_page(
        &mut self,
        at: Mark,
        page: u16,
        of: u16,
        segments: &[Descriptor],
    ) -> Result<Option<Reply>, ApplyFault>
        requires incarnation { 1 ≤ at.incarnation }
        requires page { IsPageOf page of segments.now }
        ensures ok { IfOk result (λ given.
            Gives self.old (record { at = at; page = page; of = of; segments = segments.now }) given self.new) }
        ensures err { IfErr result
            (PageRefused self.old (record { at = at; page = page; of = of; segments = segments.now })) }
        ensures unchanged { OnErr result (self.new ≡ self.old) }
    {
        match self.pages.take(at, page, of, segments) {
            Ok(Some(set)) => Ok(Some(snapshot_of(at, set))),
            Ok(None) => Ok(None),
            Err(PageFault::Conflict) => Err(ApplyFault::PageConflict),
            Err(PageFault::Memory) => Err(ApplyFault::Memory),
        }
    }
}
