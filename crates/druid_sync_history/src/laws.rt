//! What a node's answers are good for.
ghost use Rattle.std.specs.Prelude.{◌≡◌, ℕ, List, take, Option, Some};
ghost use Rattle.druid_segment_descriptor.specs.Described.{Described};
ghost use Rattle.druid_segment_descriptor.specs.Mark.{Point};
ghost use Rattle.druid_segment_descriptor.specs.Replay.{replay, replay_from};
ghost use Rattle.druid_segment_descriptor.specs.declared.change.Ask.TheVariants.{Since};
ghost use Rattle.druid_segment_descriptor.specs.declared.change.Change.{Change};
ghost use Rattle.druid_segment_descriptor.specs.declared.reply.Body.TheVariants.{Delta};
ghost use Rattle.druid_sync_history.specs.Answer.{answer, mark_after};

/// A broker that has what a node served at a mark, and makes the changes of the delta that the node answers, has what
/// the node serves, and its mark.
pub fn deltas_reach_the_node()
    ensures { (incarnation limit : ℕ) (frozen after : Option ℕ) (history changes : List Change) (mark from to : Point) (held set : List Described)
        → replay history ≡ Some set → replay (take mark.count history) ≡ Some held
        → answer incarnation history limit frozen (Since mark) ≡ Some (Delta from to changes, after)
        → (from ≡ mark) × (to ≡ mark_after incarnation history) × (replay_from held changes ≡ Some set) }
{}
