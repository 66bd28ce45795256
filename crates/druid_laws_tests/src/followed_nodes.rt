//! A broker that follows two data nodes.
ghost use Rattle.std.specs.Prelude.{◌≡◌, ℕ, List, [], map, length, IfSome, OnSome};
ghost use Rattle.druid_inventory.specs.Entry.{fresh};
ghost use Rattle.druid_laws_tests.specs.FollowedNodes.{AreFollowed};
ghost use Rattle.druid_laws_tests.specs.Nodes.{IsNode};

use crate::node_link::NodeLink;
use druid_broker_follow::sync_turn;
use druid_inventory_views::{Publication, Publisher, Receipt};
use druid_sync_text::asks_are_read_back;
use std::alloc::Global;
use std::sync::Wait;

/// Follows two nodes, neither of which was synced.
pub(crate) fn follow_two<J: Publication, R: Wait + Drop>(
    alloc: Global,
    left: &mut NodeLink,
    right: &mut NodeLink,
    publisher: &mut Publisher<J, R>,
) -> Option<Receipt<J>>
    requires published { publisher.old.published ≡ [] }
    requires left { IsNode left.old }
    requires right { IsNode right.old }
    requires fresh { (names : List (List ℕ)) × (length names ≡ 2) × (publisher.old.inventory ≡ map fresh names) }
    ensures followed { IfSome result (λ receipt. AreFollowed left.old right.old receipt) }
    ensures left { OnSome result (left.new ≡ left.old) }
    ensures right { OnSome result (right.new ≡ right.old) }
{
    asks_are_read_back();
    let first = sync_turn(alloc, 0, left, publisher);
    let Ok(_) = first else {
        return None;
    };
    let second = sync_turn(alloc, 1, right, publisher);
    let Ok((_, receipt)) = second else {
        return None;
    };
    Some(receipt)
}
