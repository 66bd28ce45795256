//! Facts that hold of all holdings.
ghost use Rattle.std.specs.Prelude.{◌≡◌, ℕ, List, Contains};
ghost use Rattle.druid_time.specs.Extent.{Extent, AnyHas, AreParts};
ghost use Rattle.druid_segment_id.specs.Group.{Group};
ghost use Rattle.druid_segment_id.specs.Identifier.{Identifier};
ghost use Rattle.druid_segment_descriptor.specs.Described.{Described};
ghost use Rattle.druid_timeline.specs.Holding.{Held, held_of, IsHeld, OnePerPlace, AddsHeld, RemovesHeld, SameHeld};
ghost use Rattle.druid_timeline.specs.Overshadowed.{IsOvershadowed};
ghost use Rattle.druid_timeline.specs.Visible.{IsVisible};
ghost use Rattle.druid_timeline.specs.Pieces.{Shown, ArePiecesIn, ArePieces, cut};

/// At most one chunk is visible at an instant.
pub fn one_is_visible()
    ensures { (held : List Held) (t : ℕ) (g h : Group) → IsVisible held t g → IsVisible held t h → g ≡ h }
{}

/// The pieces in a set of instants are one list, and so are those at all instants.
pub fn one_list_of_pieces()
    ensures cut { (parts : List Extent) (held : List Held) (ps qs : List Shown)
        → ArePiecesIn (AnyHas parts) held ps → ArePiecesIn (AnyHas parts) held qs → ps ≡ qs }
    ensures whole { (held : List Held) (ps qs : List Shown)
        → ArePieces held ps → ArePieces held qs → ps ≡ qs }
{}

/// The visible pieces, cut by the parts of a set, are the pieces in that set.
pub fn cut_is_the_pieces_within()
    ensures { (parts : List Extent) (held : List Held) (ps : List Shown)
        → AreParts parts → ArePieces held ps → ArePiecesIn (AnyHas parts) held (cut parts ps) }
{}

/// What is visible, what is overshadowed and which the pieces are is decided by what is held as a set.
pub fn one_holding_shows_one()
    ensures visible { (old new : List Held) (t : ℕ) (g : Group) → SameHeld old new → IsVisible old t g → IsVisible new t g }
    ensures overshadowed { (old new : List Held) (g : Group) → SameHeld old new → IsOvershadowed old g → IsOvershadowed new g }
    ensures cut { (parts : List Extent) (old new : List Held) (ps qs : List Shown) → SameHeld old new
        → ArePiecesIn (AnyHas parts) old ps → ArePiecesIn (AnyHas parts) new qs → ps ≡ qs }
    ensures whole { (old new : List Held) (ps qs : List Shown) → SameHeld old new
        → ArePieces old ps → ArePieces new qs → ps ≡ qs }
{}

/// What is added and what is removed are each other's reverse, and neither makes a node serve an identifier twice.
pub fn edits_are_undone()
    ensures added_after_removed { (old mid new : List Held) (node : ℕ) (d : Described) → OnePerPlace old
        → Contains old (held_of node d) → RemovesHeld old mid node d.id → AddsHeld mid new (held_of node d)
        → SameHeld old new }
    ensures removed_after_added { (old mid new : List Held) (node : ℕ) (d : Described)
        → (IsHeld old node d.id → ⊥) → AddsHeld old mid (held_of node d) → RemovesHeld mid new node d.id
        → SameHeld old new }
    ensures one_after_added { (old new : List Held) (node : ℕ) (d : Described) → OnePerPlace old
        → (IsHeld old node d.id → ⊥) → AddsHeld old new (held_of node d) → OnePerPlace new }
    ensures one_after_removed { (old new : List Held) (node : ℕ) (id : Identifier) → OnePerPlace old
        → RemovesHeld old new node id → OnePerPlace new }
{}
