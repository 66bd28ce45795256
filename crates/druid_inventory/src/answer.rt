//! What is known of a node, as a reply to a broker that asks: whole, or in pages.
ghost use Rattle.std.specs.Prelude.{◌≡◌, ◌≢◌, ◌<◌, length, IsTrue, IfOk};
ghost use Rattle.druid_segment_descriptor.specs.Mark.{never};
ghost use Rattle.druid_segment_descriptor.specs.Reply.{max_page};
ghost use Rattle.druid_sync_pages.specs.Pages.{pages_in};
ghost use Rattle.druid_inventory.specs.Entry.{page_of, whole_or_page, has_page, cause_of, answer_of};

use crate::known::KnownNode;
use crate::replies::page_of_set;
use druid_segment_descriptor::{Ask, Cause, MAX_PAGE, Mark, Reply};
use druid_sync_pages::pages_of;
use std::alloc::{AllocError, Global};

// A page of all that the node serves at its mark.
fn page_of(known: &KnownNode, alloc: Global, page: u16) -> Result<Reply, AllocError>
    requires synced { known.now.mark ≢ never }
    requires many { max_page < length known.now.set }
    requires there { page < pages_in (length known.now.set) }
    ensures { IfOk result (λ reply. reply ≡ page_of known.now page) }
{
    page_of_set(alloc, known.synced_mark(), known.set(), page)
}

// All that the node serves at its mark, or the first page where that is too large for one message.
fn whole_or_page(known: &KnownNode, alloc: Global) -> Result<Reply, AllocError>
    requires { known.now.mark ≢ never }
    ensures { IfOk result (λ reply. reply ≡ whole_or_page known.now) }
{
    if known.set().len() <= MAX_PAGE {
        return known.snapshot(alloc);
    }
    page_of(known, alloc, 0)
}

// Whether the mark is the node's, and all that it serves there is sent in pages, of which this is one.
fn has_page(known: &KnownNode, mark: Mark, page: u16) -> bool
    ensures value { result ≡ has_page known.now mark page }
    ensures many { IsTrue result → max_page < length known.now.set }
    ensures there { IsTrue result → page < pages_in (length known.now.set) }
{
    let count = known.set().len();
    mark == known.mark() && count > MAX_PAGE && (page as usize) < pages_of(count)
}

// Why a page at a mark is not to be had.
fn cause_of(known: &KnownNode, mark: Mark) -> Cause
    ensures { result ≡ cause_of known.now mark }
{
    if mark.incarnation() == known.mark().incarnation() {
        Cause::TooOld
    } else {
        Cause::OtherIncarnation
    }
}

// What a broker that asks is answered of the node.
pub(crate) fn answer_of(known: &KnownNode, alloc: Global, ask: &Ask) -> Result<Reply, AllocError>
    requires { known.now.mark ≢ never }
    ensures { IfOk result (λ reply. reply ≡ answer_of known.now ask.now) }
{
    match ask {
        Ask::Whole => whole_or_page(known, alloc),
        Ask::Since(_) => whole_or_page(known, alloc),
        Ask::Page(mark, page) => {
            if has_page(known, *mark, *page) {
                return page_of(known, alloc, *page);
            }
            Ok(Reply::reset(cause_of(known, *mark), known.synced_mark()))
        }
    }
}
