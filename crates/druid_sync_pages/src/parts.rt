//! The pages of one snapshot that have come.
ghost use Rattle.std.specs.Prelude.{◌≡◌, ◌↔◌, ◌≤◌, ◌<◌, List, IsTrue, Some, length, option_map, slice_get, IfOk, OnOk, OnErr};
ghost use Rattle.druid_segment_descriptor.specs.Described.{Described};
ghost use Rattle.druid_segment_descriptor.specs.Reply.{max_page, max_pages, max_segments, AreSorted};
ghost use Rattle.druid_sync_pages.specs.Assembly.{IsPage, no_pages, with_page, whole_of};
ghost use Rattle.druid_sync_pages.specs.PageSizes.{AllThere, OthersThere, EndsBefore, FitsAs};

use crate::PageFault;
use crate::pages::{append_copies, copies_of};
use druid_segment_descriptor::{Descriptor, Descriptors, Items, Mark};
use std::alloc::{AllocError, Global};
use std::cmp::Ordering;
use std::marker::Model;

// How a page fits those that have come.
#[derive(Clone, Copy, Debug, Drop)]
pub(crate) enum Fit {
    // It has come before.
    There,
    // It has not come, nor has another.
    Lacking,
    // It has not come, and all others have.
    Last,
}

// The pages of a snapshot that have come, each at its number.
#[derive(Debug, Drop)]
pub(crate) struct Parts {
    at: Mark,
    pages: Vec<Option<Descriptors>>,
}

impl Model for Parts {
    ghost use Rattle.druid_sync_pages.specs.Assembly.{Parts, AreParts};

    ghost Value = { Parts };

    ghost view = { λ a. record { at = a.at; pages = a.pages.items } };

    ghost invariant = { λ a. AreParts a.pages.items };
}

// Whether the segments of one page end before those of the next begin.
fn ends_before(page: &[Descriptor], next: &[Descriptor]) -> bool
    requires some { 1 ≤ length page.now }
    requires more { 1 ≤ length next.now }
    ensures { IsTrue result ↔ EndsBefore page.now next.now }
{
    page[page.len() - 1].id().cmp(next[0].id()) == Ordering::Less
}

// Whether they are the same segments.
#[tactic(auto, using(druid_segment_descriptor::proofs::DescribedLemmas::same_sets))]
fn are_same(a: &[Descriptor], b: &[Descriptor]) -> bool
    ensures { IsTrue result ↔ (a.now ≡ b.now) }
{
    a == b
}

// Copies of pages, each at its number.
fn copies_of_pages(
    alloc: Global,
    pages: &[Option<Descriptors>],
) -> Result<Vec<Option<Descriptors>>, AllocError>
    ensures { IfOk result (λ copies. copies.items ≡ pages.now) }
{
    let mut copies = Vec::new(alloc);
    for page in pages {
        let copy = match page {
            Some(segments) => Some(Items::new(copies_of(alloc, segments.as_slice())?)),
            None => None,
        };
        copies.push(copy)?;
    }
    Ok(copies)
}

impl Parts {
    // A copy.
    pub(crate) fn copy(&self, alloc: Global) -> Result<Parts, AllocError>
        ensures { IfOk result (λ parts. parts ≡ self.now) }
    {
        Ok(Parts {
            at: self.at,
            pages: copies_of_pages(alloc, &self.pages)?,
        })
    }

    // None of so many pages.
    pub(crate) fn new(alloc: Global, at: Mark, of: u16) -> Result<Parts, AllocError>
        requires { of ≤ max_pages }
        ensures { IfOk result (λ parts. parts ≡ no_pages at of) }
    {
        let mut pages = Vec::with_capacity(alloc, of as usize)?;
        for _ in 0..of {
            pages.push_reserved(None);
        }
        Ok(Parts { at, pages })
    }

    // The mark of the snapshot.
    pub(crate) fn at(&self) -> Mark
        ensures { result ≡ self.now.at }
    {
        self.at
    }

    // Puts a page at its place.
    pub(crate) fn put(
        &mut self,
        alloc: Global,
        page: u16,
        segments: &[Descriptor],
    ) -> Result<(), AllocError>
        requires within { page < length self.old.pages }
        requires some { 1 ≤ length segments.now }
        requires few { length segments.now ≤ max_page }
        requires sorted { AreSorted segments.now }
        ensures ok { OnOk result (self.new ≡ with_page self.old page segments.now) }
        ensures err { OnErr result (self.new ≡ self.old) }
    {
        let copies = copies_of(alloc, segments)?;
        self.pages[page as usize] = Some(Items::new(copies));
        Ok(())
    }

    // How many pages there are, of which some have come.
    fn count(&self) -> usize
        ensures { result ≡ length self.now.pages }
    {
        self.pages.len()
    }

    // The segments of a page, if it has come.
    fn get(&self, place: usize) -> Option<&[Descriptor]>
        requires { place < length self.now.pages }
        ensures { slice_get self.now.pages place ≡ Some (option_map (λ s. s.now) result) }
    {
        match &self.pages[place] {
            Some(found) => Some(found.as_slice()),
            None => None,
        }
    }

    // The segments of a page where this page is at its place, if they have come.
    fn page_with<'a>(
        &'a self,
        page: u16,
        segments: &'a [Descriptor],
        place: usize,
    ) -> Option<&'a [Descriptor]>
        requires { place < length self.now.pages }
        ensures { slice_get (with_page self.now page segments.now).pages place ≡ Some (option_map (λ s. s.now) result) }
    {
        if place == page as usize {
            return Some(segments);
        }
        self.get(place)
    }

    // Whether all other pages have come.
    fn lacks_only(&self, page: u16) -> bool
        ensures { IsTrue result ↔ OthersThere self.now.pages page }
    {
        for place in 0..self.pages.len() {
            if place != page as usize && self.pages[place].is_none() {
                return false;
            }
        }
        true
    }

    // Whether the segments of all pages rise, this page at its place.
    #[tactic(auto, using(crate::proofs::OrderLemmas::rising_whole))]
    fn rises_with(&self, page: u16, segments: &[Descriptor]) -> bool
        requires some { 1 ≤ length segments.now }
        requires few { length segments.now ≤ max_page }
        requires sorted { AreSorted segments.now }
        requires there { AllThere (with_page self.now page segments.now).pages }
        ensures { (set : List Described) → whole_of (with_page self.now page segments.now).pages ≡ Some set → IsTrue result ↔ AreSorted set }
    {
        for place in 1..self.pages.len() {
            let Some(before) = self.page_with(page, segments, place - 1) else {
                unreachable!();
            };
            let Some(after) = self.page_with(page, segments, place) else {
                unreachable!();
            };
            if !ends_before(before, after) {
                return false;
            }
        }
        true
    }

    // How a page of this mark fits those that have come, of which there are so many. Does not allocate.
    pub(crate) fn fit(&self, page: u16, of: u16, segments: &[Descriptor]) -> Result<Fit, PageFault>
        requires { IsPage (record { at = self.now.at; page = page; of = of; segments = segments.now }) }
        ensures { FitsAs self.now (record { at = self.now.at; page = page; of = of; segments = segments.now }) result }
    {
        if self.count() != of as usize {
            return Err(PageFault::Conflict);
        }
        if let Some(found) = self.get(page as usize) {
            return if are_same(found, segments) {
                Ok(Fit::There)
            } else {
                Err(PageFault::Conflict)
            };
        }
        if !self.lacks_only(page) {
            return Ok(Fit::Lacking);
        }
        if !self.rises_with(page, segments) {
            return Err(PageFault::Conflict);
        }
        Ok(Fit::Last)
    }

    // Copies of the segments of all pages, this page at its place.
    #[tactic(auto, using(crate::proofs::WholeLemmas::whole_of_more))]
    pub(crate) fn whole_with(
        &self,
        alloc: Global,
        page: u16,
        segments: &[Descriptor],
    ) -> Result<Vec<Descriptor>, AllocError>
        requires some { 1 ≤ length segments.now }
        requires few { length segments.now ≤ max_page }
        requires sorted { AreSorted segments.now }
        requires there { AllThere (with_page self.now page segments.now).pages }
        ensures whole { IfOk result (λ set. whole_of (with_page self.now page segments.now).pages ≡ Some set.items) }
        ensures few { IfOk result (λ set. length set.items ≤ max_segments) }
    {
        let mut set = Vec::new(alloc);
        for place in 0..self.pages.len() {
            let Some(found) = self.page_with(page, segments, place) else {
                unreachable!();
            };
            append_copies(&mut set, found)?;
        }
        Ok(set)
    }
}
