//! The sentences that a user of a broker relies on. What nodes serve is one list of segments, one
//! of each identifier: that replicas of one identifier hold the same rows is a premise.
ghost use Rattle.std.specs.Prelude.{◌≡◌, ◌⊎◌, ◌++◌, ℕ, List, Some, Ok, length, map, slice_get};
ghost use Rattle.druid_segment_descriptor.specs.declared.change.Ask.{Ask};
ghost use Rattle.druid_segment_descriptor.specs.declared.change.Ask.TheVariants.{Whole};
ghost use Rattle.druid_segment_descriptor.specs.declared.reply.Body.{Body};
ghost use Rattle.druid_sync_text.specs.Asks.{ask_at, parameters_of};
ghost use Rattle.druid_inventory.specs.Entry.{Entry, ask_of, fresh};
ghost use Rattle.druid_segment_rows.specs.Segment.{Segment};
ghost use Rattle.druid_query.specs.Query.{Query};
ghost use Rattle.druid_query.specs.Read.{IsQuery};
ghost use Rattle.druid_query.specs.Asked.{Asked};
ghost use Rattle.druid_query.specs.SubQuery.{IsAsked};
ghost use Rattle.druid_link.specs.Exchanged.{Exchanged};
ghost use Rattle.druid_link.specs.TcpLinks.{TcpLinkValue, ExchangesOverTcp};
ghost use Rattle.druid_http_message.specs.Requests.{RequestValue};
ghost use Rattle.druid_http_wire.specs.Written.{answer_text};
ghost use Rattle.druid_node.specs.State.{State, IsState};
ghost use Rattle.druid_node.specs.Routes.{RespondsInTurn, IsReplyTo};
ghost use Rattle.druid_inventory_views.specs.Fold.{Published, fold_of};
ghost use Rattle.druid_broker_scatter.specs.Gathered.{Exchange, AreMade, request_for};
ghost use Rattle.druid_broker_scatter.specs.Exact as pieces;
ghost use Rattle.druid_broker_follow.specs.Turns.{ask_request, entry_request, IsAnswerTo, IsFetchedFrom};
ghost use Rattle.druid_broker_follow.specs.Turns as turns;
ghost use Rattle.druid_broker.specs.Views.{RespondsBy, AnswersUnread};
ghost use Rattle.druid_laws_world.specs.World.{Life, IsLife, IsWorld, IsHonest, IsInventoryOf, eras_of, marks_of};
ghost use Rattle.druid_laws_world.specs.Run.{AreHonest};
ghost use Rattle.druid_laws_headline.specs.Headline.{AreAmong, AnswersHonestly, WereHonest, kept_of, HasText, HasWords, IsLastOf, IsPosted, IsExactAt};

use druid_link::Link;

/// Whatever lists of honest replies two brokers published, in whatever order and with whatever repeats: the inventory that each list
/// makes of the opening one, in which no node was synced, is what the nodes serve in the world at its marks; so where the marks are
/// equal the inventories are, and with them the timelines. It is what `View::read` gives, by the list that the view has seen.
pub fn readers_agree()
    ensures of_world { (world : List Life) (names : List (List ℕ)) (published : Published)
        → IsWorld world → length names ≡ length world → AreHonest world published
        → IsInventoryOf world (fold_of (map fresh names) published) }
    ensures equal { (world : List Life) (names : List (List ℕ)) (a b : Published)
        → IsWorld world → length names ≡ length world → AreHonest world a → AreHonest world b
        → marks_of (fold_of (map fresh names) a) ≡ marks_of (fold_of (map fresh names) b)
        → fold_of (map fresh names) a ≡ fold_of (map fresh names) b }
{}

/// What `serve_one` answers to a query that is posted is what is defined over the world, at the marks of the list that its view has seen
/// after the call, where the replies of that list are honest in the world and the broker and the world have one list of nodes; or 500,
/// where the view was given no reading or memory ran out. (What was asked, and what is missing by the plan, is in `RespondsBy`.)
pub fn queries_are_exact<L: Link>()
    ensures { (order : List ℕ → List ℕ) (world : List Life) (names : List (List ℕ)) (seen now : Published) (request : RequestValue) (asked : Query)
        (old new : List L) (status : ℕ) (body : List ℕ)
        → IsWorld world → length names ≡ length world → AreHonest world now → IsPosted request asked
        → RespondsBy L.exchanges order (map fresh names) seen now old new request status body
        → IsExactAt L.exchanges world (marks_of (fold_of (map fresh names) now)) asked old new status body ⊎ AnswersUnread status body }
{}

/// What a data node of ours answers to a request for pieces is honest, out of memory included, over any list of segments in
/// which each segment that it holds and is asked for stands under its identifier: so a node that went on since the broker learned
/// of it, and holds more, is honest too.
pub fn nodes_are_honest()
    ensures { (state next : State) (query : Query) (asked : List Asked) (node : ℕ) (status : ℕ) (body : List ℕ) (segments : List Segment)
        → IsState state → IsQuery query → IsAsked query.source asked
        → RespondsInTurn state next (request_for query asked) status body
        → AreAmong asked state.held segments
        → pieces.IsHonest query segments (record { node = node; asked = asked; came = Ok (answer_text status body) }) }
{}

/// What a data node of ours answers to an ask, where a broker reads it as a reply, is the answer of the node's history, and so honest
/// in a world in which the node's changes are those of its last incarnation. Of the ask it takes what `ask_target` says: that it is read
/// back as itself.
pub fn asks_are_answered()
    ensures answer { (state next : State) (ask : Ask) (status : ℕ) (body : List ℕ) (reply : Body)
        → ask_at (parameters_of ask) ≡ Some ask
        → RespondsInTurn state next (ask_request ask) status body
        → IsAnswerTo (Ok (answer_text status body)) (Ok reply)
        → IsReplyTo state.history next.history ask reply }
    ensures honest { (life : Life) (state next : State) (ask : Ask) (status : ℕ) (body : List ℕ) (reply : Body)
        → IsLife life → IsLastOf life state
        → ask_at (parameters_of ask) ≡ Some ask
        → RespondsInTurn state next (ask_request ask) status body
        → IsAnswerTo (Ok (answer_text status body)) (Ok reply)
        → IsHonest (eras_of life) reply }
{}

/// What `fetch` answers is honest in a life of the node, and so is what `fetch_entry` answers of a peer, where each ask that was sent
/// in this call was answered honestly: so is a snapshot put together of pages, each of which was answered at its time, while the node
/// went on.
pub fn fetched_replies_are_honest<L: Link>()
    ensures fetched { (life : Life) (inventory : List Entry) (node : ℕ) (entry : Entry) (old new : L) (reply : Body)
        → IsLife life → HasWords life → AnswersHonestly L.exchanges ask_request life old new
        → slice_get inventory node ≡ Some entry → HasText (ask_of entry.mark)
        → IsFetchedFrom L.exchanges inventory node old new (Ok reply) → IsHonest (eras_of life) reply }
    ensures of_entry { (life : Life) (node : ℕ) (old new : L) (reply : Body)
        → IsLife life → HasWords life → AnswersHonestly L.exchanges (entry_request node) life old new
        → turns.IsAsked L.exchanges (entry_request node) Whole old new (Ok reply) → IsHonest (eras_of life) reply }
{}

/// Over sockets: what a call fetched came of exchanges that its link keeps, before those that it had; and what holds of these holds of
/// the exchanges of the call. So where they were honest, what was fetched is.
pub fn kept_exchanges_are_of_the_call()
    ensures kept { (inventory : List Entry) (node : ℕ) (old new : TcpLinkValue) (reply : Body)
        → IsFetchedFrom ExchangesOverTcp inventory node old new (Ok reply) → (made : List Exchanged) × (new.made ≡ made ++ old.made) }
    ensures honest { (request : Ask → RequestValue) (life : Life) (old new : TcpLinkValue) (made : List Exchanged)
        → new.made ≡ made ++ old.made → WereHonest request life made → AnswersHonestly ExchangesOverTcp request life old new }
{}

/// Of a query over sockets: what the link to a node keeps since is what was exchanged with that node, and nothing else. So an answer for
/// which nothing was exchanged has no exchanges, and all that was asked for is missing.
pub fn kept_exchanges_are_of_the_query()
    ensures { (asked : Query) (exchanges : List Exchange) (old new : List TcpLinkValue) (node : ℕ) (before after : TcpLinkValue)
        → AreMade ExchangesOverTcp asked exchanges old new → slice_get old node ≡ Some before → slice_get new node ≡ Some after
        → after.made ≡ kept_of asked node exchanges ++ before.made }
{}
