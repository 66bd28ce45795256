//! Facts that hold of all runs.
ghost use Rattle.std.specs.Prelude.{◌≡◌, ◌≢◌, ℕ, List, None, Some, Contains, length, map, slice_get};
ghost use Rattle.std.specs.List.{AllByRecursion, AllZip};
ghost use Rattle.std.specs.declared.cmp.Ordering.TheVariants.{Greater};
ghost use Rattle.druid_segment_descriptor.specs.Described.{Described};
ghost use Rattle.druid_segment_descriptor.specs.Mark.{Point, mark_cmp};
ghost use Rattle.druid_segment_descriptor.specs.declared.reply.Body.{Body};
ghost use Rattle.druid_inventory.specs.Entry.{Entry, fresh};
ghost use Rattle.druid_inventory.specs.Join.{IsJoin, ConflictAt, names_of};
ghost use Rattle.druid_laws_world.specs.World.{Life, IsLife, IsWorld, CameTo, set_at, IsInventoryOf, IsHonest, Grows, eras_of, marks_of};
ghost use Rattle.druid_laws_world.specs.Run.{State, IsReached, Next, Run, Folds, AreHonest, AreLaterOf, refusal};
ghost use Rattle.druid_laws_world.specs.declared.event.Event.{Event};

/// In each state that a run comes to, what a broker knows of a node is what the node serves at the broker's mark of it.
/// So brokers at equal marks know the same, whichever moments of the run they are looked at. And so it is with whoever
/// applies true replies, whatever their order, from an inventory in which no node was synced.
pub fn same_marks_same_inventory()
    ensures reached { (s : State) → IsReached s → IsWorld s.world × AllByRecursion (IsInventoryOf s.world) s.brokers }
    ensures equal { (s t : State) (events : List Event) (a b : List Entry) → IsReached s → Run s events t
        → Contains s.brokers a → Contains t.brokers b → marks_of a ≡ marks_of b → a ≡ b }
    ensures determined { (world : List Life) (a b : List Entry) → IsInventoryOf world a → IsInventoryOf world b
        → names_of a ≡ names_of b → marks_of a ≡ marks_of b → a ≡ b }
    ensures folded { (world : List Life) (names : List (List ℕ)) (reported : List (ℕ × Body)) (inventory : List Entry)
        → IsWorld world → length names ≡ length world → AreHonest world reported
        → Folds (map fresh names) reported inventory → IsInventoryOf world inventory }
{}

/// Two inventories that tell what each node served at a mark are joined without a conflict, and together they tell what
/// each node served at the later of both marks. Joining an inventory with itself changes nothing, the order of the two
/// does not matter, and where three are joined, neither does which two come first.
pub fn join_is_a_join()
    ensures some { (world : List Life) (a b : List Entry) → IsInventoryOf world a → IsInventoryOf world b
        → names_of a ≡ names_of b → (joined : List Entry) × IsJoin a b joined }
    ensures joined { (world : List Life) (a b joined : List Entry) → IsInventoryOf world a → IsInventoryOf world b
        → IsJoin a b joined → IsInventoryOf world joined × (names_of joined ≡ names_of a)
        × AreLaterOf (marks_of a) (marks_of b) (marks_of joined) }
    ensures no_conflict { (world : List Life) (a b : List Entry) (node : ℕ) → IsInventoryOf world a → IsInventoryOf world b
        → ConflictAt a b node → ⊥ }
    ensures idempotent { (a : List Entry) → IsJoin a a a }
    ensures commutative { (a b joined : List Entry) → IsJoin a b joined → IsJoin b a joined }
    ensures associative { (a b c ab bc left right : List Entry) → IsJoin a b ab → IsJoin ab c left → IsJoin b c bc
        → IsJoin a bc right → left ≡ right }
{}

/// No run of events lowers a mark of a broker.
pub fn marks_never_fall()
    ensures { (s t : State) (events : List Event) (broker node : ℕ) (before : List Entry) (e : Entry) → Run s events t
        → slice_get s.brokers broker ≡ Some before → slice_get before node ≡ Some e
        → (after : List Entry) × (f : Entry) × (slice_get t.brokers broker ≡ Some after) × (slice_get after node ≡ Some f)
        × (mark_cmp e.mark f.mark ≢ Greater) }
{}

/// In a state that a run comes to, an event leads to one other state, or it is refused.
pub fn one_next()
    ensures one { (s t u : State) (event : Event) → Next s event t → Next s event u → t ≡ u }
    ensures not_refused { (s t : State) (event : Event) → Next s event t → refusal s event ≡ None }
    ensures some { (s : State) (event : Event) → IsReached s → refusal s event ≡ None → (t : State) × Next s event t }
{}

/// Nothing that a node ever did is changed by an event, and what was reported truly stays true.
pub fn worlds_grow()
    ensures grows { (s t : State) (event : Event) → Next s event t → AllZip Grows s.world t.world }
    ensures honest { (old new : Life) (reply : Body) → Grows old new → IsHonest (eras_of old) reply
        → IsHonest (eras_of new) reply }
{}

/// A node served one set at each mark that it came to, and none at another.
pub fn each_mark_has_a_set()
    ensures there { (life : Life) (mark : Point) → IsLife life → CameTo life mark
        → (set : List Described) × (set_at (eras_of life) mark ≡ Some set) }
    ensures none { (life : Life) (mark : Point) (set : List Described) → set_at (eras_of life) mark ≡ Some set
        → CameTo life mark }
{}
