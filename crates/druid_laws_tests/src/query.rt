//! A query, asked of a broker that follows two data nodes.
ghost use Rattle.std.specs.Prelude.{◌≡◌, ◌≤◌, ℕ, List, [], ◌∷◌, map, length, IfSome};
ghost use mathlib.Core.List.{IsPrefix};
ghost use Rattle.druid_inventory.specs.Entry.{fresh};
ghost use Rattle.druid_node.specs.State.{State};
ghost use Rattle.druid_laws_tests.specs.Nodes.{IsNode};
ghost use Rattle.druid_laws_tests.specs.FollowedNodes.{AreFollowed};
ghost use Rattle.druid_laws_tests.specs.Answers.{AnswersExactly};

use crate::followed_nodes::follow_two;
use crate::laws::answers_are_exact;
use crate::node_link::NodeLink;
use crate::nodes::know;
use druid_broker::{Routes, serve_one};
use druid_broker_scatter::Rotate;
use druid_inventory::Inventory;
use druid_inventory_views::{Opened, Publication, Receipt, View, open};
use druid_node::NodeState;
use std::alloc::Global;
use std::sync::Wait;
use std::thread::Threads;

// What is written for a request, by a view that has seen no more than the receipt tells.
fn answer_two<J: Publication, R: Threads + Wait + Sync>(
    rt: &R,
    alloc: Global,
    view: &mut View<J>,
    receipt: &Receipt<J>,
    links: &mut [NodeLink],
    request: &[u8],
) -> Option<Vec<u8>>
    requires fresh { (names : List (List ℕ)) × (length names ≡ 2) × (J.opening ≡ map fresh names) }
    requires seen { IsPrefix receipt.now view.old }
    requires links { length links.old ≡ 2 }
    ensures { (left right : State) → links.old ≡ left ∷ right ∷ [] → IsNode left → IsNode right → AreFollowed left right receipt.now
        → IfSome result (λ written. AnswersExactly left right request.now written.items) }
{
    answers_are_exact();
    let Ok(routes) = Routes::new(alloc) else {
        return None;
    };
    let mut reader = request;
    let mut written = Vec::new(alloc);
    let served = serve_one(
        rt,
        alloc,
        &routes,
        &mut reader,
        &mut written,
        view,
        0,
        &Rotate,
        links,
    );
    let Ok(_) = served else {
        return None;
    };
    if view.count() != 2 {
        return None;
    }
    Some(written)
}

// The same over the links to two nodes that were followed.
fn answer_over<J: Publication, R: Threads + Wait + Sync>(
    rt: &R,
    alloc: Global,
    view: &mut View<J>,
    receipt: &Receipt<J>,
    left: NodeLink,
    right: NodeLink,
    request: &[u8],
) -> Option<Vec<u8>>
    requires fresh { (names : List (List ℕ)) × (length names ≡ 2) × (J.opening ≡ map fresh names) }
    requires seen { IsPrefix receipt.now view.old }
    requires left { IsNode left }
    requires right { IsNode right }
    requires followed { AreFollowed left right receipt.now }
    ensures { IfSome result (λ written. AnswersExactly left right request.now written.items) }
{
    let Ok(mut links) = vec![in alloc; left, right] else {
        return None;
    };
    answer_two(rt, alloc, view, receipt, &mut links, request)
}

// The same of a new broker, which follows the nodes once.
fn ask_nodes<J: Publication, R: Threads + Wait + Sync + Copy + Drop>(
    rt: &R,
    alloc: Global,
    list: Opened,
    inventory: Inventory,
    left: NodeState,
    right: NodeState,
    request: &[u8],
) -> Option<Vec<u8>>
    requires book { list ≡ J.book }
    requires opening { inventory ≡ J.opening }
    requires fresh { (names : List (List ℕ)) × (length names ≡ 2) × (J.opening ≡ map fresh names) }
    requires left { IsNode left }
    requires right { IsNode right }
    ensures { IfSome result (λ written. AnswersExactly left right request.now written.items) }
{
    let opened = open::<J, R>(alloc, *rt, list, inventory, 1);
    let Ok((mut publisher, mut views)) = opened else {
        return None;
    };
    let Some(mut view) = views.pop() else {
        return None;
    };
    let mut left = NodeLink::new(left);
    let mut right = NodeLink::new(right);
    let Some(receipt) = follow_two(alloc, &mut left, &mut right, &mut publisher) else {
        return None;
    };
    view.learn(&receipt);
    answer_over(rt, alloc, &mut view, &receipt, left, right, request)
}

/// Opens a publisher of an inventory in which neither of two nodes was synced, follows each of them once, and gives what the broker
/// writes for a request, over the links to them: where the request posts a query, the result over the rows that are visible in the
/// world of any lives of theirs, at their marks. `None` where memory runs out, or a turn or a write failed, or a node serves more than
/// one message carries.
pub fn ask_two<J: Publication, R: Threads + Wait + Sync + Copy + Drop>(
    rt: &R,
    alloc: Global,
    list: Opened,
    inventory: Inventory,
    mut left: NodeState,
    mut right: NodeState,
    request: &[u8],
) -> Option<Vec<u8>>
    requires book { list ≡ J.book }
    requires opening { inventory ≡ J.opening }
    requires fresh { (names : List (List ℕ)) × (length names ≡ 2) × (J.opening ≡ map fresh names) }
    ensures { IfSome result (λ written. AnswersExactly left right request.now written.items) }
{
    if !know(&mut left) || !know(&mut right) {
        return None;
    }
    ask_nodes::<J, R>(rt, alloc, list, inventory, left, right, request)
}
