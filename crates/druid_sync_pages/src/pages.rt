ghost use Rattle.std.specs.Prelude.{◌≡◌, ◌++◌, IfOk, OnOk};
ghost use Rattle.druid_sync_pages.specs.Pages.{page_at, pages_in, IsCutInto};

use druid_segment_descriptor::{Descriptor, MAX_PAGE};
use std::alloc::{AllocError, Global};

/// How many pages a set of so many segments takes.
pub fn pages_of(segments: usize) -> usize
    ensures value { result ≡ pages_in segments }
    ensures cut { IsCutInto segments result }
{
    segments.div_ceil(MAX_PAGE)
}

// Puts copies of segments to others.
#[tactic(auto, using(crate::proofs::SameLemmas::appended))]
pub(crate) fn append_copies(
    set: &mut Vec<Descriptor>,
    segments: &[Descriptor],
) -> Result<(), AllocError>
    ensures { OnOk result (set.new.items ≡ set.old.items ++ segments.now) }
{
    set.extend_from_slice(segments)
}

// Copies of segments, in their order.
pub(crate) fn copies_of(
    alloc: Global,
    segments: &[Descriptor],
) -> Result<Vec<Descriptor>, AllocError>
    ensures { IfOk result (λ copies. copies.items ≡ segments.now) }
{
    let mut copies = Vec::new(alloc);
    append_copies(&mut copies, segments)?;
    Ok(copies)
}

/// Copies of the segments of that page of a set, counted from 0; none past its last page.
///
/// # Errors
///
/// Out of memory.
pub fn page_of(alloc: Global, set: &[Descriptor], page: u16) -> Result<Vec<Descriptor>, AllocError>
    ensures { IfOk result (λ segments. segments.items ≡ page_at set.now page) }
{
    let start = set.len().min(page as usize * MAX_PAGE);
    let end = set.len().min(start + MAX_PAGE);
    copies_of(alloc, &set[start..end])
}
