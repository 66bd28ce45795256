//! A snapshot put together of its pages.
ghost use Rattle.std.specs.Prelude.{◌≡◌, ◌≤◌, ◌<◌, None, Some, length, option_map, IfOk, IfErr, IfSome, OnOk, OnErr};
ghost use Rattle.std.specs.declared.cmp.Ordering.TheVariants.{Less, Equal, Greater};
ghost use Rattle.druid_segment_descriptor.specs.Mark.{mark_cmp};
ghost use Rattle.druid_segment_descriptor.specs.Reply.{max_segments};
ghost use Rattle.druid_sync_pages.specs.Assembly.{IsPage, Takes, Refuses, no_pages, with_page};
ghost use Rattle.druid_sync_pages.specs.PageSizes.{Compares, PutsIn, RefusesIn};

use crate::PageFault;
use crate::parts::{Fit, Parts};
use druid_segment_descriptor::{Descriptor, Mark};
use std::alloc::{AllocError, Global};
use std::cmp::Ordering;
use std::marker::Model;

/// The pages of a snapshot that have come so far, in any order: of the latest mark that any page had.
#[derive(Debug, Drop)]
pub struct Assembly {
    alloc: Global,
    parts: Option<Parts>,
}

impl Model for Assembly {
    ghost use Rattle.std.specs.Prelude.{Option};
    ghost use Rattle.druid_sync_pages.specs.Assembly.{Parts};

    ghost Value = { Option Parts };

    ghost view = { λ a. a.parts };
}

impl Clone for Assembly {
    ghost is_clone = { λ assembly copy. copy ≡ assembly };

    fn clone(&self) -> Result<Assembly, AllocError> {
        let parts = match &self.parts {
            Some(parts) => Some(parts.copy(self.alloc)?),
            None => None,
        };
        Ok(Assembly {
            alloc: self.alloc,
            parts,
        })
    }
}

impl Assembly {
    /// No page has come.
    pub fn new(alloc: Global) -> Assembly
        ensures { result ≡ None }
    {
        Assembly { alloc, parts: None }
    }

    // How the mark of the pages that have come stands to a mark. None have come of a mark before all.
    fn cmp_mark(&self, at: Mark) -> Ordering
        ensures { Compares self.now at result }
    {
        match &self.parts {
            Some(parts) => parts.at().cmp(&at),
            None => Ordering::Less,
        }
    }

    // Begins with a page.
    fn begin(
        &mut self,
        at: Mark,
        page: u16,
        of: u16,
        segments: &[Descriptor],
    ) -> Result<(), AllocError>
        requires { IsPage (record { at = at; page = page; of = of; segments = segments.now }) }
        ensures ok { OnOk result (self.new ≡ Some (with_page (no_pages at of) page segments.now)) }
        ensures err { OnErr result (self.new ≡ self.old) }
    {
        let mut parts = Parts::new(self.alloc, at, of)?;
        parts.put(self.alloc, page, segments)?;
        self.parts = Some(parts);
        Ok(())
    }

    // Takes a page of the mark of those that have come.
    fn add(
        &mut self,
        at: Mark,
        page: u16,
        of: u16,
        segments: &[Descriptor],
    ) -> Result<Option<Vec<Descriptor>>, PageFault>
        requires page { IsPage (record { at = at; page = page; of = of; segments = segments.now }) }
        requires same { Compares self.old at Equal }
        ensures ok { IfOk result (λ given. PutsIn self.old (record { at = at; page = page; of = of; segments = segments.now }) (option_map (λ v. v.items) given) self.new) }
        ensures few { IfOk result (λ given. IfSome given (λ v. length v.items ≤ max_segments)) }
        ensures err { IfErr result (RefusesIn self.old (record { at = at; page = page; of = of; segments = segments.now })) }
        ensures unchanged { OnErr result (self.new ≡ self.old) }
    {
        let Some(parts) = &mut self.parts else {
            unreachable!();
        };
        match parts.fit(page, of, segments) {
            Ok(Fit::There) => Ok(None),
            Ok(Fit::Lacking) => {
                if parts.put(self.alloc, page, segments).is_err() {
                    return Err(PageFault::Memory);
                }
                Ok(None)
            }
            Ok(Fit::Last) => {
                let Ok(set) = parts.whole_with(self.alloc, page, segments) else {
                    return Err(PageFault::Memory);
                };
                self.parts = None;
                Ok(Some(set))
            }
            Err(fault) => Err(fault),
        }
    }

    /// Takes a page, whatever its place, and gives the segments of all pages, by identifier and at
    /// most 200,000, once all have come: then it keeps none. A page of a later mark than those that
    /// have come begins anew, and one of an earlier mark is passed over, as is one that has come
    /// before.
    ///
    /// # Errors
    ///
    /// `Conflict` where a page of their mark is one of another number of pages, has other segments
    /// than when it came before, or completes pages that do not rise from one to the next; `Memory`
    /// only where the page would be taken. Leaves all as it was.
    pub fn take(
        &mut self,
        at: Mark,
        page: u16,
        of: u16,
        segments: &[Descriptor],
    ) -> Result<Option<Vec<Descriptor>>, PageFault>
        requires { IsPage (record { at = at; page = page; of = of; segments = segments.now }) }
        ensures ok { IfOk result (λ given. Takes self.old (record { at = at; page = page; of = of; segments = segments.now }) (option_map (λ v. v.items) given) self.new) }
        ensures few { IfOk result (λ given. IfSome given (λ v. length v.items ≤ max_segments)) }
        ensures err { IfErr result (Refuses self.old (record { at = at; page = page; of = of; segments = segments.now })) }
        ensures unchanged { OnErr result (self.new ≡ self.old) }
    {
        match self.cmp_mark(at) {
            Ordering::Less => match self.begin(at, page, of, segments) {
                Ok(()) => Ok(None),
                Err(_) => Err(PageFault::Memory),
            },
            Ordering::Equal => self.add(at, page, of, segments),
            Ordering::Greater => Ok(None),
        }
    }
}
