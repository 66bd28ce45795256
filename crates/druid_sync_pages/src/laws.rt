ghost use Rattle.std.specs.Prelude.{◌≡◌, ◌≤◌, ◌<◌, ℕ, List, length, Option, Some, None};
ghost use Rattle.druid_segment_descriptor.specs.Described.{Described};
ghost use Rattle.druid_segment_descriptor.specs.Mark.{Point};
ghost use Rattle.druid_segment_descriptor.specs.Reply.{max_page, max_segments, AreSorted};
ghost use Rattle.druid_segment_descriptor.specs.Reply.{IsPageOf as IsReplyPage};
ghost use Rattle.druid_sync_pages.specs.Pages.{page_at, IsCutInto};
ghost use Rattle.druid_sync_pages.specs.Assembly.{Parts, Page, IsPage, AreOf, IsPageOf, Conflicts, Puts, Takes, Refuses, no_pages, whole_of};
ghost use Rattle.druid_sync_pages.specs.declared.fault.PageFault.TheVariants.{Conflict};

/// Of the pages of one set none conflicts with the others, in whatever order they come, and once all have come they are
/// that set.
#[tactic(auto, using(crate::proofs::SetLemmas::set_is_whole, crate::proofs::SetLemmas::of_fits, crate::proofs::SetLemmas::of_kept, crate::proofs::SetLemmas::of_given, crate::proofs::SetLemmas::of_none, crate::proofs::SetLemmas::is_page))]
pub fn pages_give_their_set()
    ensures page { (set : List Described) (p : Page) → AreSorted set → length set ≤ max_segments → IsPageOf set p → 2 ≤ p.of → p.page < p.of → IsPage p }
    ensures none { (set : List Described) (at : Point) (of : ℕ) → IsCutInto (length set) of → AreOf set (no_pages at of) }
    ensures fits { (set : List Described) (parts : Parts) (p : Page) → AreSorted set → AreOf set parts → IsPageOf set p → Conflicts parts p → ⊥ }
    ensures kept { (set : List Described) (parts : Parts) (p : Page) (new : Option Parts) → AreOf set parts → IsPageOf set p
        → Puts parts p None new → (left : Parts) × (new ≡ Some left) × AreOf set left }
    ensures given { (set whole : List Described) (parts : Parts) (p : Page) (new : Option Parts) → AreOf set parts → IsPageOf set p
        → Puts parts p (Some whole) new → whole ≡ set }
    ensures whole { (set whole : List Described) (parts : Parts) → AreOf set parts → whole_of parts.pages ≡ Some whole → whole ≡ set }
{}

/// Each page of a set that is too large for one message is one that a reply may have.
#[tactic(auto, using(crate::proofs::SetLemmas::is_page_of))]
pub fn pages_fit_replies()
    ensures { (set : List Described) (page of : ℕ) → AreSorted set → IsCutInto (length set) of → max_page < length set
        → length set ≤ max_segments → page < of → IsReplyPage page of (page_at set page) }
{}

/// What becomes of a page is decided by what has come before it: a page is taken in one way, and one that is taken does not
/// conflict. So memory is reported only of a page that fits.
#[tactic(auto, using(crate::proofs::TakeLemmas::takes_one, crate::proofs::TakeLemmas::takes_fit))]
pub fn pages_are_taken_in_one_way()
    ensures one { (old : Option Parts) (p : Page) (a b : Option (List Described)) (new other : Option Parts)
        → Takes old p a new → Takes old p b other → (a ≡ b) × (new ≡ other) }
    ensures fits { (old : Option Parts) (p : Page) (given : Option (List Described)) (new : Option Parts)
        → Takes old p given new → Refuses old p Conflict → ⊥ }
{}
