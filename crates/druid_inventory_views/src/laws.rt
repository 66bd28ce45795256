//! Facts that hold of all that is published.
ghost use Rattle.std.specs.Prelude.{◌≡◌, ◌++◌, ◌∷◌, [], ℕ, List, slice_set};
ghost use mathlib.Core.List.{IsPrefix};
ghost use Rattle.druid_segment_descriptor.specs.declared.reply.Body.{Body};
ghost use Rattle.druid_inventory.specs.Entry.{Entry};
ghost use Rattle.druid_inventory.specs.Join.{names_of};
ghost use Rattle.druid_inventory.specs.Step.{StepsAt};
ghost use Rattle.druid_inventory.specs.declared.fault.Outcome.{Outcome};
ghost use Rattle.druid_inventory_views.specs.Floor.{marks_of, Rises};
ghost use Rattle.druid_inventory_views.specs.Fold.{Published, fold_of};

/// One reply more is one step more, and the step of an entry is Step's.
pub fn folds_go_on()
    ensures { (opening : List Entry) (published : Published) (node : ℕ) (reply : Body) (outcome : Outcome) (entry : Entry)
        → StepsAt (fold_of opening published) node reply outcome entry
        → fold_of opening (published ++ (node, reply) ∷ []) ≡ slice_set (fold_of opening published) node entry }
{}

/// A fold is of the same nodes.
pub fn folds_keep_names()
    ensures { (opening : List Entry) (published : Published) → names_of (fold_of opening published) ≡ names_of opening }
{}

/// Of each node, the mark is not below the one that it had when less was published.
pub fn marks_never_fall()
    ensures { (opening : List Entry) (published more : Published) → IsPrefix published more
        → Rises (marks_of (fold_of opening published)) (marks_of (fold_of opening more)) }
{}
