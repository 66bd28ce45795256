//! Links in memory.
ghost use Rattle.std.specs.Prelude.{◌≡◌, map, vec_items};
ghost use Rattle.druid_link.specs.MemoryLinks.{fresh_link, reply_to};

use crate::{Link, MAX_EXCHANGE};
use druid_http_message::WireFault;
use std::alloc::Global;
use std::marker::Model;

/// A link whose replies are laid down. It gives them one after another, whatever is sent, and then no bytes. From the exchange
/// on whose number is the fuse, counted from 0, each fails with `Read`. A reply of more than `MAX_EXCHANGE` bytes is
/// `BodyTooLong`. Where memory for a reply is refused, `Memory` is answered and the exchange is not counted.
#[derive(Drop)]
pub struct MemoryLink {
    replies: Vec<Vec<u8>>,
    fuse: u64,
    // How many exchanges were made, and how many of them failed.
    made: u64,
    failed: u64,
}

impl Model for MemoryLink {
    ghost use Rattle.std.specs.Prelude.{map, vec_items};
    ghost use Rattle.druid_link.specs.MemoryLinks.{MemoryLinkValue};

    ghost Value = { MemoryLinkValue };

    ghost view = { λ a. record { replies = map vec_items a.replies.items; fuse = a.fuse; made = a.made; failed = a.failed } };
}

impl MemoryLink {
    /// A link with these replies, which fails from the exchange `fuse` on.
    pub fn new(replies: Vec<Vec<u8>>, fuse: u64) -> MemoryLink
        ensures { result ≡ fresh_link (map vec_items replies.items) fuse }
    {
        MemoryLink {
            replies,
            fuse,
            made: 0,
            failed: 0,
        }
    }
}

impl Link for MemoryLink {
    ghost use Rattle.druid_link.specs.MemoryLinks.{ExchangesInMemory};

    ghost exchanges = { ExchangesInMemory };

    ghost faults = { λ link. link.failed };

    fn exchange(&mut self, alloc: Global, _request: &[u8]) -> Result<Vec<u8>, WireFault> {
        if self.fuse <= self.made {
            self.made = self.made.saturating_add(1);
            self.failed = self.failed.saturating_add(1);
            return Err(WireFault::Read);
        }
        let reply = reply_to(&self.replies, self.made);
        if MAX_EXCHANGE < reply.len() {
            self.made = self.made.saturating_add(1);
            return Err(WireFault::BodyTooLong);
        }
        let reply = reply.to_vec(alloc)?;
        self.made = self.made.saturating_add(1);
        Ok(reply)
    }

    // Its replies are there at once.
    fn hasten(&mut self, _millis: Option<u64>) {}

    fn faults(&self) -> u64 {
        self.failed
    }
}

// The reply to an exchange, counted from 0, which is empty where there is none.
fn reply_to(replies: &[Vec<u8>], number: u64) -> &[u8]
    ensures { result.now ≡ reply_to (map vec_items replies.now) number }
{
    match replies.get(number as usize) {
        Some(reply) => reply.as_slice(),
        None => &[],
    }
}
