//! What the threads of a broker remember of its nodes: of each one word, so that a note or a try is
//! not torn and no query takes a lock.
ghost use Rattle.std.specs.Prelude.{◌≡◌, ◌≤◌, IfOk, vec_len};
ghost use Rattle.druid_link_health.specs.Limits.{max_nodes, pause_of};

use crate::counts::{Counts, WAYS, counts_of, way_of};
use crate::mark::Mark;
use crate::{Asker, Ceiling, Oversize, Standing};
use crossbeam_utils::atomic::AtomicCell;
use druid_http_message::WireFault;
use std::alloc::{AllocError, Global};
use std::marker::Model;

/// The most nodes that are remembered: each has a bit of 64.
pub const MAX_NODES: u16 = 64;

/// The least pause between two tries of a node that ails, in milliseconds.
pub const LEAST_PAUSE: u64 = 1_000;

// How a node with that mark stands for a query. `Due` is given to one query, which tries the node then.
fn stand(mark: &AtomicCell<u64>, pause: u64, now: u64) -> Standing {
    let word = mark.load();
    let seen = Mark::from_word(word);
    let standing = seen.standing(pause, now);
    match standing {
        Standing::Due => match mark.compare_exchange(word, seen.after_try(now).to_word()) {
            Ok(_) => Standing::Due,
            Err(_) => Standing::Ailing,
        },
        Standing::Well | Standing::Ailing => standing,
    }
}

// The query whose try began then did without the node with that mark: where no exchange was noted since, it is due again.
fn release(mark: &AtomicCell<u64>, began: u64) {
    let word = mark.load();
    let seen = Mark::from_word(word);
    if seen.is_tried_since(began) {
        let _ = mark.compare_exchange(word, seen.untried().to_word());
    }
}

/// How the nodes stand before a query.
#[derive(Debug, Drop)]
pub struct Snapshot {
    ailing: u64,
    tried: u64,
    at: u64,
}

impl Model for Snapshot {
    ghost use Rattle.druid_link_health.specs.Snapshots.{SnapshotValue};

    ghost Value = { SnapshotValue };

    ghost view = { λ a. record { ailing = a.ailing; tried = a.tried; at = a.at } };
}

impl Snapshot {
    /// The nodes that failed lately and that this query does not try: node k has the bit 2^k.
    pub fn ailing(&self) -> u64
        ensures { result ≡ self.now.ailing }
    {
        self.ailing
    }

    /// The nodes that ail and that this query tries.
    pub fn tried(&self) -> u64
        ensures { result ≡ self.now.tried }
    {
        self.tried
    }
}

/// What the threads of a broker remember of its nodes: of each whether it ails, and how its exchanges ended. All calls but the
/// first are by `&self`, and take no lock, no wait and no memory. Times are milliseconds of one clock.
///
/// A node ails once an exchange with it failed by its device (X2, X3 or X8), until an exchange of a query succeeds; what a
/// syncer's exchange noted, a syncer's that succeeds clears too. While it ails, one query is let to try it after each pause.
#[derive(Drop)]
pub struct Health {
    // Of each node the word of its mark. (As a number: a cell of the kit for another type may be shared, but not sent.)
    marks: Vec<AtomicCell<u64>>,
    // Of each node the counters of its `WAYS`, one node's after another's.
    counters: Vec<AtomicCell<u64>>,
    // Of each node how many answers and how many questions met their limit since that was last taken.
    answers: Vec<AtomicCell<u64>>,
    questions: Vec<AtomicCell<u64>>,
    patience: u64,
    pause: u64,
}

impl Model for Health {
    ghost use Rattle.std.specs.Prelude.{◌≡◌, ◌≤◌, ◌*◌, vec_len};
    ghost use Rattle.druid_link_health.specs.Snapshots.{HealthValue};
    ghost use Rattle.druid_link_health.specs.Limits.{max_nodes, ways};

    ghost Value = { HealthValue };

    ghost view = { λ a. record { nodes = vec_len a.marks; patience = a.patience; pause = a.pause } };

    ghost invariant = { λ a. (vec_len a.marks ≤ max_nodes) × (vec_len a.counters ≡ vec_len a.marks * ways) };
}

// What a cell has, which has 0 from then on. One that has 0 is left to other threads.
fn taken(cell: &AtomicCell<u64>) -> u64 {
    if cell.load() == 0 { 0 } else { cell.swap(0) }
}

// So many cells with that word.
fn cells(alloc: Global, count: usize, word: u64) -> Result<Vec<AtomicCell<u64>>, AllocError>
    ensures { IfOk result (λ cells. vec_len cells ≡ count) }
{
    let mut cells = Vec::with_capacity(alloc, count)?;
    for _ in 0..count {
        cells.push(AtomicCell::new(word))?;
    }
    Ok(cells)
}

impl Health {
    /// Of nodes 0 to `nodes` less one, all well, with which an exchange may take so many milliseconds. The pause between two tries
    /// of one that ails is as long, and a second at least.
    ///
    /// # Errors
    ///
    /// Out of memory.
    pub fn new(alloc: Global, nodes: u16, patience: u64) -> Result<Health, AllocError>
        requires { nodes ≤ max_nodes }
        ensures { IfOk result (λ health. health ≡ record { nodes = nodes; patience = patience; pause = pause_of patience }) }
    {
        let count = nodes as usize;
        Ok(Health {
            marks: cells(alloc, count, Mark::well().to_word())?,
            counters: cells(alloc, count * WAYS, 0)?,
            answers: cells(alloc, count, 0)?,
            questions: cells(alloc, count, 0)?,
            patience,
            pause: patience.max(LEAST_PAUSE),
        })
    }

    /// How many milliseconds an exchange may take.
    pub fn patience(&self) -> u64
        ensures { result ≡ self.now.patience }
    {
        self.patience
    }

    // An exchange with a node ended so.
    fn count(&self, node: u16, ended: Result<(), WireFault>) {
        let place = node as usize * WAYS + way_of(ended);
        if let Some(counter) = self.counters.get(place) {
            counter.fetch_add(1);
        }
    }

    /// An exchange with a node ended so at that time. It is counted, and changes whether the node ails. A node that is not
    /// remembered is passed over.
    pub fn note(&self, node: u16, asker: Asker, ended: Result<(), WireFault>, now: u64) {
        self.count(node, ended);
        if let Some(mark) = self.marks.get(node as usize) {
            let _ = mark.fetch_update(|word: u64| {
                Some(Mark::from_word(word).after(asker, ended, now).to_word())
            });
        }
    }

    /// An exchange with a node ended so, since its query's own deadline cut it short. It is counted, and says nothing of the node;
    /// but where a query was to try it, that was done.
    pub fn note_cut(&self, node: u16, ended: Result<(), WireFault>) {
        self.count(node, ended);
        if let Some(mark) = self.marks.get(node as usize) {
            let _ = mark.fetch_update(|word: u64| Some(
                Mark::from_word(word).after_cut().to_word(),
            ));
        }
    }

    /// An exchange with a node met that limit. A node that is not remembered is passed over.
    pub fn note_ceiling(&self, node: u16, ceiling: Ceiling) {
        let cells = match ceiling {
            Ceiling::Answer => &self.answers,
            Ceiling::Question => &self.questions,
        };
        if let Some(cell) = cells.get(node as usize) {
            cell.fetch_add(1);
        }
    }

    /// How many exchanges with a node met a limit since this was last asked of it.
    ///
    /// # Errors
    ///
    /// None where none did, and of a node that is not remembered.
    pub fn take_oversize(&self, node: u16) -> Option<Oversize> {
        let answers = taken(self.answers.get(node as usize)?);
        let questions = taken(self.questions.get(node as usize)?);
        if answers == 0 && questions == 0 {
            return None;
        }
        Some(Oversize { answers, questions })
    }

    /// How the nodes stand for one query at that time. A node that ails and is due is let out of the ailing ones for this
    /// query alone, and rests again.
    pub fn snapshot(&self, now: u64) -> Snapshot
        ensures { result.at ≡ now }
    {
        let mut ailing = 0u64;
        let mut tried = 0u64;
        for node in 0..self.marks.len() {
            match stand(&self.marks[node], self.pause, now) {
                Standing::Well => {}
                Standing::Ailing => ailing |= 1 << node,
                Standing::Due => tried |= 1 << node,
            }
        }
        Snapshot {
            ailing,
            tried,
            at: now,
        }
    }

    /// The query of this snapshot is over: of the nodes that it was to try, those that were not asked are due again.
    pub fn release(&self, snapshot: Snapshot) {
        let Snapshot {
            ailing: _,
            tried,
            at,
        } = snapshot;
        for node in 0..self.marks.len() {
            if (tried >> node) % 2 == 1 {
                release(&self.marks[node], at);
            }
        }
    }

    /// Whether a node ails.
    ///
    /// # Errors
    ///
    /// None of a node that is not remembered.
    pub fn ails(&self, node: u16) -> Option<bool> {
        let word = self.marks.get(node as usize)?.load();
        Some(Mark::from_word(word).ails())
    }

    /// How the exchanges with a node ended so far.
    ///
    /// # Errors
    ///
    /// None of a node that is not remembered.
    pub fn counts(&self, node: u16) -> Option<Counts> {
        let node = node as usize;
        if self.marks.len() <= node {
            return None;
        }
        Some(counts_of(&self.counters[node * WAYS..(node + 1) * WAYS]))
    }
}
