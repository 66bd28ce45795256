ghost use Rattle.std.specs.Prelude.{◌≡◌, ◌↔◌, ◌++◌, List, Some, IsTrue, Contains, option_and_then};
ghost use Rattle.druid_segment_id.specs.Identifier.{identifier_text};
ghost use Rattle.druid_segment_descriptor.specs.Described.{Described};
ghost use Rattle.druid_segment_descriptor.specs.Reply.{AreSorted};
ghost use Rattle.druid_segment_descriptor.specs.Replay.{IsSegmentSet, IsChangedBy, changed, is_strict, replay_from};
ghost use Rattle.druid_segment_descriptor.specs.declared.change.Change.{Change};
ghost use Rattle.druid_segment_descriptor.specs.declared.change.Change.TheVariants.{Load, Drop};

/// A change that is strict and has room makes of a set the set with that segment more, or without it; and no set is
/// another with the same members.
pub fn changes_change_one_segment()
    ensures change { (s t : List Described) (c : Change) → IsSegmentSet s → changed s c ≡ Some t
        → IsSegmentSet t × IsChangedBy s t c }
    ensures load { (s : List Described) (d : Described) → IsTrue (is_strict s (Load d))
        ↔ ((x : Described) → Contains s x → identifier_text x.id ≡ identifier_text d.id → ⊥) }
    ensures drop { (s : List Described) (d : Described) → IsTrue (is_strict s (Drop d)) ↔ Contains s d }
    ensures one { (s t : List Described) → AreSorted s → AreSorted t
        → ((x : Described) → Contains s x ↔ Contains t x) → s ≡ t }
{}

/// A list of changes is replayed in parts: what the first part leaves is what the second begins with.
pub fn replays_go_on()
    ensures parts { (s : List Described) (a b : List Change)
        → replay_from s (a ++ b) ≡ option_and_then (λ t. replay_from t b) (replay_from s a) }
    ensures front { (s u : List Described) (a b : List Change) → replay_from s (a ++ b) ≡ Some u
        → (t : List Described) × (replay_from s a ≡ Some t) × (replay_from t b ≡ Some u) }
    ensures kept { (s t : List Described) (cs : List Change) → IsSegmentSet s → replay_from s cs ≡ Some t
        → IsSegmentSet t }
{}
