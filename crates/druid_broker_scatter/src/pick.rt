//! In which order the replicas of a piece are asked. Which nodes ail is looked at once for a query,
//! so that an order is a function of the pick's value and the turn.
ghost use Rattle.std.specs.Prelude.{◌≡◌, ◌≤◌, ◌<◌, ◌+◌, ℕ, List, ◌∷◌, ◌++◌, length};
ghost use Rattle.std.specs.List.Sorted.{IsPermutation};
ghost use Rattle.druid_broker_scatter.specs.Order.{turned, has_node, ailing_last};

use druid_segment_descriptor::NodeNo;
use std::marker::Model;

/// A way to order replicas.
pub trait Pick {
    /// The order of the nodes that serve a piece, at a turn.
    ghost orders: { Self → ℕ → List ℕ → List ℕ };

    /// Puts the nodes that serve a piece in the order in which they are asked. The turn tells one query from the next.
    fn order(&self, turn: u64, nodes: &mut [NodeNo])
        ensures ordered { nodes.new ≡ orders self.now turn nodes.old }
        ensures permuted { IsPermutation nodes.old nodes.new };
}

/// The nodes take turns: they are turned left by the turn, modulo their count.
#[derive(Clone, Copy, Debug)]
pub struct Rotate;

impl Pick for Rotate {
    ghost orders = { λ pick turn nodes. turned turn nodes };

    fn order(&self, turn: u64, nodes: &mut [NodeNo]) {
        if nodes.is_empty() {
            return;
        }
        let by = turn % nodes.len() as u64;
        nodes.rotate_left(by as usize);
    }
}

/// The nodes take turns as with `Rotate`, and then those that ail go last; each group stays in its turned order.
#[derive(Clone, Copy, Debug)]
pub struct AilingLast {
    ailing: u64,
}

impl Model for AilingLast {
    ghost use Rattle.std.specs.Prelude.{ℕ};

    ghost Value = { ℕ };

    ghost view = { λ a. a.ailing };

    ghost inverse = { λ ailing. record { ailing = ailing } };
}

impl AilingLast {
    /// With these nodes as the ailing ones: node k, of 0 to 63, has the bit 2^k. A node from 64 on has none, and never goes last.
    pub fn new(ailing: u64) -> AilingLast
        ensures { result ≡ ailing }
    {
        AilingLast { ailing }
    }
}

impl Pick for AilingLast {
    ghost orders = { λ ailing turn nodes. ailing_last ailing (turned turn nodes) };

    fn order(&self, turn: u64, nodes: &mut [NodeNo]) {
        Rotate.order(turn, nodes);
        put_last(self.ailing, nodes);
    }
}

// Whether a node has its bit.
fn has_node(set: u64, node: NodeNo) -> bool
    ensures { result ≡ has_node set node }
{
    node < 64 && (set >> node) % 2 == 1
}

// Moves a node to an earlier place; those from there on make room.
fn move_forward(nodes: &mut [NodeNo], to: usize, from: usize)
    requires order { to ≤ from }
    requires place { from < length nodes.old }
    ensures { (front passed after : List ℕ) (node : ℕ) → nodes.old ≡ front ++ (passed ++ (node ∷ after))
        → length front ≡ to → length front + length passed ≡ from
        → nodes.new ≡ front ++ (node ∷ (passed ++ after)) }
{
    nodes[to..from + 1].rotate_right(1);
}

// Puts those last that ail.
fn put_last(ailing: u64, nodes: &mut [NodeNo])
    ensures { nodes.new ≡ ailing_last ailing nodes.old }
{
    let mut well = 0;
    for place in 0..nodes.len() {
        if !has_node(ailing, nodes[place]) {
            move_forward(nodes, well, place);
            well += 1;
        }
    }
}
