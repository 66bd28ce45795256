//! What each front thread does, and whose connection is closed where none is free. No byte makes a
//! wait begin anew, or a client that drips would outlive one that uploads; the grace keeps quick
//! clients from closing each other.
ghost use Rattle.std.specs.Prelude.{◌≡◌, ◌<◌, ℕ, ◌≤◌, ◌↔◌, length, All, IsTrue, false, IfOk, IfSome, IfNone, None, Some, slice_get, slice_set, take};
ghost use Rattle.druid_serve_front.specs.Seats.{WaitsSince, IsFree, AreHeld, IsLongest, Closes, NoneCloses, earlier_of};

use std::alloc::{AllocError, Global};
use std::marker::Model;

/// How long a thread waits for its client at least before its connection may be closed for another's sake, in nanoseconds: a tenth
/// of a second.
pub const GRACE: u64 = 100_000_000;

/// What a front thread does.
#[derive(Clone, Copy, Debug, PartialEq, Eq, Drop)]
pub enum Seat {
    /// It is free for a connection.
    Free,
    /// It waits for its client, since that time in nanoseconds.
    Waits(u64),
    /// It waits for a worker.
    Asks,
    /// Its connection was closed for another's sake.
    Closed,
}

/// What the front threads do, each at its place.
#[derive(Drop)]
pub struct Seats {
    seats: Vec<Seat>,
}

impl Model for Seats {
    ghost use Rattle.std.specs.Prelude.{List};
    ghost use Rattle.druid_serve_front.specs.declared.seats.Seat.{Seat};

    ghost Value = { List Seat };

    ghost view = { λ a. a.seats.items };
}

impl Seats {
    /// So many threads, all free.
    ///
    /// # Errors
    ///
    /// Out of memory.
    pub fn new(alloc: Global, threads: usize) -> Result<Seats, AllocError>
        ensures count { IfOk result (λ seats. length seats ≡ threads) }
        ensures free { IfOk result (λ seats. All (λ seat. seat ≡ Seat.Free) seats) }
    {
        let mut seats = Vec::with_capacity(alloc, threads)?;
        for _ in 0..threads {
            seats.push(Seat::Free)?;
        }
        Ok(Seats { seats })
    }

    /// What the thread at that place does. None where there is no such place.
    pub fn at(&self, place: usize) -> Option<Seat>
        ensures { result ≡ slice_get self.now place }
    {
        if place < self.seats.len() {
            Some(self.seats[place])
        } else {
            None
        }
    }

    /// From now on the thread at that place does this, where there is such a place.
    pub fn set(&mut self, place: usize, seat: Seat)
        ensures { self.new ≡ slice_set self.old place seat }
    {
        if place < self.seats.len() {
            self.seats[place] = seat;
        }
    }

    // Whether every thread has a connection.
    #[tactic(auto, using(crate::proofs::SeatLemmas::held_too, crate::proofs::SeatLemmas::all_held))]
    fn are_held(&self) -> bool
        ensures yes { IsTrue result → AreHeld self.now }
        ensures no { result ≡ false → ((place : ℕ) × IsFree self.now place) }
    {
        for place in 0..self.seats.len() {
            if let Some(Seat::Free) = self.at(place) {
                return false;
            }
        }
        true
    }

    // The thread that waits longest for its client, and since when.
    #[tactic(auto, using(crate::proofs::SeatLemmas::none_yet, crate::proofs::SeatLemmas::with_wait, crate::proofs::SeatLemmas::without_wait, crate::proofs::SeatLemmas::longest_of_all, crate::proofs::SeatLemmas::none_of_all))]
    fn longest(&self) -> Option<(usize, u64)>
        ensures some { IfSome result (λ found. IsLongest self.now found.0 found.1) }
        ensures none { IfNone result ((place since : ℕ) → ¬ (WaitsSince self.now place since)) }
    {
        let mut found = None;
        for place in 0..self.seats.len() {
            if let Some(Seat::Waits(since)) = self.at(place) {
                found = earlier(found, place, since);
            }
        }
        found
    }

    /// Where no thread is free for a connection, and one waits for its client for `GRACE` or longer: that whose wait began first is
    /// closed, and its place given. None where a thread is free, or none waits for so long.
    pub fn close_longest(&mut self, now: u64) -> Option<usize>
        ensures some { IfSome result (λ place. Closes now place self.old self.new) }
        ensures kept { IfNone result (self.new ≡ self.old) }
        ensures none { IfNone result (NoneCloses now self.old) }
    {
        if !self.are_held() {
            return None;
        }
        let Some((place, since)) = self.longest() else {
            return None;
        };
        if now.saturating_sub(since) < GRACE {
            return None;
        }
        self.set(place, Seat::Closed);
        Some(place)
    }
}

// The earlier of what was found and of this.
fn earlier(found: Option<(usize, u64)>, place: usize, since: u64) -> Option<(usize, u64)>
    ensures { result ≡ earlier_of found place since }
{
    match found {
        Some((before, first)) => {
            if first <= since {
                Some((before, first))
            } else {
                Some((place, since))
            }
        }
        None => Some((place, since)),
    }
}
