//! What a broker counts of a node that it follows.
ghost use Rattle.std.specs.Prelude.{◌≡◌, ◌<◌, IfOk, IfSome, length, position, vec_len};
ghost use Rattle.std.specs.Str.{bytes_eq};

use crate::families::{Followed, TURN_ENDS};
use crate::meter::Counts;
use std::alloc::{AllocError, Global};

// The places of the sums: the incarnation and the count of the mark that is held, and when the node was heard.
const INCARNATION: usize = 0;

const CHANGES: usize = 1;

const HEARD: usize = 2;

/// The place of an end among those that there are, from 0: None where it is none of them.
pub fn end_place(ends: &[&str], end: &str) -> Option<usize>
    ensures value { result ≡ position (λ one. bytes_eq one.now end.now) ends.now }
    ensures bound { IfSome result (λ place. place < length ends.now) }
{
    ends.iter().position(|one| *one == end)
}

/// What a broker counts of a node that it follows, in cells that no writer waits for.
#[derive(Drop)]
pub struct FollowMeter {
    turns: Counts,
    held: Counts,
}

impl FollowMeter {
    /// One that has counted nothing.
    ///
    /// # Errors
    ///
    /// Out of memory.
    pub fn new(alloc: Global) -> Result<FollowMeter, AllocError>
        ensures { IfOk result (λ meter. vec_len meter.turns.cells ≡ 11) }
    {
        Ok(FollowMeter {
            turns: Counts::new(alloc, TURN_ENDS.len())?,
            held: Counts::new(alloc, 3)?,
        })
    }

    /// Counts a turn by its end, one of `TURN_ENDS`; another is not counted.
    pub fn turn(&self, end: &str) {
        if let Some(place) = end_place(&TURN_ENDS, end) {
            self.turns.add(place, 1);
        }
    }

    /// Notes the mark that is held of the node.
    pub fn hold(&self, incarnation: u64, changes: u64) {
        self.held.set(INCARNATION, incarnation);
        self.held.set(CHANGES, changes);
    }

    /// Notes that a turn did not fail at an instant, in milliseconds since 1970.
    pub fn hear(&self, at: u64) {
        self.held.set(HEARD, at);
    }

    /// Whether the mark that is held is of an incarnation of the node, and so the node was synced.
    pub fn is_synced(&self) -> bool {
        self.held.number(INCARNATION) > 0
    }

    /// What was counted so far of the node of that name, with how its exchanges ended, in the order of `EXCHANGE_ENDS`: each number
    /// is one that it had while this was called.
    ///
    /// # Errors
    ///
    /// Out of memory.
    pub fn read<'a>(
        &self,
        alloc: Global,
        node: &'a str,
        exchanges: Vec<u64>,
    ) -> Result<Followed<'a>, AllocError>
        ensures node { IfOk result (λ followed. followed.node ≡ node.now) }
        ensures turns { IfOk result (λ followed. length followed.turns ≡ vec_len self.now.turns.cells) }
        ensures exchanges { IfOk result (λ followed. followed.exchanges ≡ exchanges.items) }
    {
        Ok(Followed {
            node,
            incarnation: self.held.number(INCARNATION),
            changes: self.held.number(CHANGES),
            heard: self.held.number(HEARD),
            turns: self.turns.read(alloc)?,
            exchanges,
        })
    }
}
