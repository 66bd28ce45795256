//! The laws of the headline, over two data nodes.
ghost use Rattle.std.specs.Prelude.{◌≡◌, ◌⊎◌, ℕ, List, [], ◌∷◌, Some, Ok, map, length, slice_get};
ghost use Rattle.druid_segment_descriptor.specs.declared.reply.Body.{Body};
ghost use Rattle.druid_inventory.specs.Entry.{Entry, ask_of, fresh};
ghost use Rattle.druid_query.specs.Query.{Query};
ghost use Rattle.druid_http_message.specs.Requests.{RequestValue};
ghost use Rattle.druid_node.specs.State.{State};
ghost use Rattle.druid_inventory_views.specs.Fold.{Published};
ghost use Rattle.druid_broker_follow.specs.Turns.{IsFetchedFrom};
ghost use Rattle.druid_broker.specs.Views.{RespondsBy, AnswersUnread};
ghost use Rattle.druid_laws_world.specs.World.{Life, IsHonest, IsLife, eras_of};
ghost use Rattle.druid_laws_headline.specs.Headline.{HasText, HasWords, IsLastOf, IsPosted};
ghost use Rattle.druid_laws_tests.specs.Exchanges.{ExchangesWithNode};
ghost use Rattle.druid_laws_tests.specs.Nodes.{IsNode};
ghost use Rattle.druid_laws_tests.specs.FollowedNodes.{AreFollowed};
ghost use Rattle.druid_laws_tests.specs.Answers.{IsExactOver};

use crate::node_link::NodeLink;
use druid_laws_headline::{
    asks_are_answered, fetched_replies_are_honest, nodes_are_honest, queries_are_exact,
};
use druid_sync_text::asks_are_read_back;

/// What a broker answers to a query that is posted, where what its view has seen is what each of two nodes answered to an ask for
/// all, is what is defined over the world of any lives of theirs, at their marks; or 500, where nothing was read or memory was
/// refused.
pub fn answers_are_exact()
    ensures { (order : List ℕ → List ℕ) (names : List (List ℕ)) (seen now : Published) (left right : State) (new : List State)
        (first second : Life) (request : RequestValue) (asked : Query) (status : ℕ) (body : List ℕ)
        → length names ≡ 2 → IsNode left → IsNode right → AreFollowed left right now
        → IsLife first → IsLife second → IsLastOf first left → IsLastOf second right → IsPosted request asked
        → RespondsBy ExchangesWithNode order (map fresh names) seen now (left ∷ right ∷ []) new request status body
        → IsExactOver (first ∷ second ∷ []) left right asked status body ⊎ AnswersUnread status body }
{
    asks_are_read_back();
    asks_are_answered();
    nodes_are_honest();
    queries_are_exact::<NodeLink>();
}

/// What a broker fetches over a link to a data node, of which it knows whatever it does, is honest in any life of the node.
pub fn fetches_are_honest()
    ensures { (life : Life) (inventory : List Entry) (number : ℕ) (entry : Entry) (old new : State) (reply : Body)
        → IsLife life → HasWords life → IsLastOf life old → slice_get inventory number ≡ Some entry → HasText (ask_of entry.mark)
        → IsFetchedFrom ExchangesWithNode inventory number old new (Ok reply) → IsHonest (eras_of life) reply }
{
    asks_are_read_back();
    asks_are_answered();
    fetched_replies_are_honest::<NodeLink>();
}
