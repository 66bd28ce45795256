//! Where the connections that a broker answered are counted, once its queries are answered.
use std::sync::{Condvar, Mutex, Wait};

// What lies under the lock.
#[derive(Drop)]
struct GateCount {
    // Whether connections count.
    open: bool,
    // How many were answered.
    answered: u64,
}

/// A count of answered connections, which threads share. It counts nothing before it is opened. What lies under a lock is no value, so
/// no contract speaks of the count.
#[derive(Drop)]
pub struct Gate {
    count: Mutex<GateCount>,
    changed: Condvar,
}

impl Gate {
    /// A gate that is closed.
    pub fn new() -> Gate {
        Gate {
            count: Mutex::new(GateCount {
                open: false,
                answered: 0,
            }),
            changed: Condvar::new(),
        }
    }

    /// From now on connections count.
    pub fn open<R: Wait>(&self, rt: &R) {
        let mut count = self.count.lock(rt);
        count.open = true;
    }

    /// Whether a connection counts that is accepted now.
    pub fn is_open<R: Wait>(&self, rt: &R) -> bool {
        let count = self.count.lock(rt);
        count.open
    }

    /// One more was answered.
    pub fn add<R: Wait>(&self, rt: &R) {
        let mut count = self.count.lock(rt);
        count.answered = count.answered.saturating_add(1);
        drop(count);
        self.changed.notify_all();
    }

    /// Waits until so many were answered.
    pub fn wait<R: Wait>(&self, rt: &R, wanted: u64) {
        let count = self.count.lock(rt);
        drop(
            self.changed
                .wait_while(rt, count, |count| count.answered < wanted),
        );
    }
}
