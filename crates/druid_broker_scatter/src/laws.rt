//! Facts that hold of all plans, and of all that is gathered.
ghost use Rattle.std.specs.Prelude.{◌≡◌, ℕ, Bool, List, Contains};
ghost use Rattle.std.specs.List.Sorted.{IsStrictlySortedBy};
ghost use Rattle.druid_segment_descriptor.specs.Described.{Described, IsDescribed};
ghost use Rattle.druid_inventory.specs.Entry.{Entry};
ghost use Rattle.druid_inventory.specs.Sources.{Serves, IsHoldingOf};
ghost use Rattle.druid_timeline.specs.Holding.{Held};
ghost use Rattle.druid_segment_rows.specs.Rows.{Row};
ghost use Rattle.druid_segment_rows.specs.Segment.{Segment};
ghost use Rattle.druid_query.specs.Query.{Query};
ghost use Rattle.druid_query.specs.Asked.{Asked};
ghost use Rattle.druid_query.specs.SubQuery.{IsAsked};
ghost use Rattle.druid_partial.specs.Groups.{Group, IsResult};
ghost use Rattle.druid_partial.specs.Partials.{kinds_of};
ghost use Rattle.druid_broker_scatter.specs.Exact.{IsHonest, AreServed, Sees, counted_visible};
ghost use Rattle.druid_broker_scatter.specs.Gathered.{Exchange, IsGathered};
ghost use Rattle.druid_broker_scatter.specs.Order.{turned, ailing_last};
ghost use Rattle.druid_broker_scatter.specs.Plan.{Pair, asked_of, place_cmp, IsPlanOf};

/// A query has one plan over an inventory.
pub fn one_plan()
    ensures { (inventory : List Entry) (query : Query) (a b : List Pair) → IsPlanOf inventory query a → IsPlanOf inventory query b → a ≡ b }
{}

/// Pieces of a plan, in the plan's order, may be asked for in one subquery: each is a piece of a segment of the query's source
/// and lies inside it, and no two overlap. What nodes serve has identifiers.
pub fn plans_may_be_asked()
    ensures { (inventory : List Entry) (query : Query) (pairs : List Pair) (asked : List Asked) → IsPlanOf inventory query pairs
        → ((node : ℕ) (d : Described) → Serves inventory node d → IsDescribed d) → (a : Asked) × Contains asked a
        → ((a : Asked) → Contains asked a → Contains (asked_of pairs) a) → IsStrictlySortedBy place_cmp asked → IsAsked query.source asked }
{}

/// Where each answer was honest over the segments that nodes serve, what was gathered is the result over the rows that are
/// visible in the inventory, asked for and in no missing piece, each once, however many nodes serve it and whatever versions
/// overlap.
pub fn gathered_rows_are_exact()
    ensures { (order : List ℕ → List ℕ) (inventory : List Entry) (query : Query) (pairs : List Pair) (exchanges : List Exchange) (missing : List Asked) (groups : List Group)
        (segments : List Segment) (held : List Held) (sees : Segment → Row → Bool)
        → IsPlanOf inventory query pairs → IsGathered order query pairs exchanges missing groups
        → AreServed inventory query.source segments → IsHoldingOf inventory query.source held → Sees query held segments sees
        → ((e : Exchange) → Contains exchanges e → IsHonest query segments e)
        → IsResult (kinds_of query) (counted_visible query sees missing segments) groups }
{}

/// Where no node ails, `AilingLast` orders as `Rotate` does.
pub fn none_ailing_is_rotate()
    ensures { (turn : ℕ) (nodes : List ℕ) → ailing_last 0 (turned turn nodes) ≡ turned turn nodes }
{}
